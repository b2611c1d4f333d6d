// Shows a record by a loaded book and a view.
ghost use Rattle.std.specs.Prelude.{◌≡◌, ◌≢◌, ◌≤◌, [], Err};
ghost use Rattle.ecam_io.specs.Outside.{raised};
ghost use Rattle.book_model.specs.Sealed.{the_book};
ghost use Rattle.fwc_pair.specs.PairState.{PairFits};
ghost use Rattle.record_views.specs.Showing.{shown_by};
ghost use Rattle.replay_core.specs.Play.{Shown};
ghost use Rattle.replay_core.specs.Calls.{shelf_call, sink_call};

use crate::load::{Loaded, give_up};
use crate::play::play;
use ecam_io::{Shelf, Sink};
use fwc_pair::View;
use record_views::RunError;

// Shows a file by a loaded book and a new view. It takes both, so that the commands needn't give up their memory.
pub(crate) fn show<V: View + Drop, F: Shelf, O: Sink>(
    mut loaded: Loaded,
    mut view: V,
    record_name: &str,
    limit: u32,
    files: &mut F,
    out: &mut O,
) -> Result<(), RunError>
    requires pair { PairFits (the_book loaded.book) loaded.pair }
    requires fits { V.fits (V.settings view) (the_book loaded.book) }
    requires new { V.stands view (the_book loaded.book) [] }
    ensures shows { Shown (shelf_call F.Source files.old files.new)
        (sink_call O.Sink out.old out.new)
        (the_book loaded.book)
        (shown_by V.View (V.settings view) (the_book loaded.book))
        record_name.now limit result }
    ensures opens { F.opens files.new ≡ raised (F.opens files.old) }
    ensures files { F.files files.new ≡ F.files files.old }
    ensures faults { F.faults files.old ≤ F.faults files.new }
    ensures quiet { result ≢ Err RunError.Read → F.faults files.new ≡ F.faults files.old }
    ensures out_faults { O.faults out.old ≤ O.faults out.new }
    ensures out_quiet { result ≢ Err RunError.Write → O.faults out.new ≡ O.faults out.old }
{
    let played = play(&mut loaded, &mut view, record_name, limit, files, out);
    give_up(loaded);
    match played {
        Ok(_) => Ok(()),
        Err(error) => Err(error),
    }
}
