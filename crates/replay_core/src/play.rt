// Opens a record, and shows it by a loaded book and a view.
ghost use Rattle.std.specs.Prelude.{◌≡◌, ◌≢◌, ◌≤◌, [], Err};
ghost use Rattle.ecam_io.specs.Outside.{raised};
ghost use Rattle.book_model.specs.Sealed.{the_book};
ghost use Rattle.fwc_pair.specs.PairState.{PairFits};
ghost use Rattle.record_views.specs.Showing.{shown_by};
ghost use Rattle.replay_core.specs.Calls.{shelf_call, sink_call};
ghost use Rattle.replay_core.specs.Play.{Plays};

use crate::load::Loaded;
use ecam_io::{Failed, Shelf, Sink};
use fwc_pair::View;
use record_views::{RunError, run_view};

// Shows the record of the file of that name by a new view. It is told as a failed read too where the file couldn't be opened.
pub(crate) fn play<V: View, F: Shelf, O: Sink>(
    loaded: &mut Loaded,
    view: &mut V,
    record_name: &str,
    limit: u32,
    files: &mut F,
    out: &mut O,
) -> Result<u64, RunError>
    requires pair { PairFits (the_book loaded.old.book) loaded.old.pair }
    requires fits { V.fits (V.settings view.old) (the_book loaded.old.book) }
    requires new { V.stands view.old (the_book loaded.old.book) [] }
    ensures fits { PairFits (the_book loaded.new.book) loaded.new.pair }
    ensures book { loaded.new.book ≡ loaded.old.book }
    ensures plays { Plays (shelf_call F.Source files.old files.new)
        (sink_call O.Sink out.old out.new)
        (the_book loaded.old.book)
        (shown_by V.View (V.settings view.old) (the_book loaded.old.book))
        loaded.new.pair record_name.now limit result }
    ensures opens { F.opens files.new ≡ raised (F.opens files.old) }
    ensures files { F.files files.new ≡ F.files files.old }
    ensures faults { F.faults files.old ≤ F.faults files.new }
    ensures quiet { result ≢ Err RunError.Read → F.faults files.new ≡ F.faults files.old }
    ensures out_faults { O.faults out.old ≤ O.faults out.new }
    ensures out_quiet { result ≢ Err RunError.Write → O.faults out.new ≡ O.faults out.old }
{
    match files.open(record_name) {
        Ok(()) => run_view(&loaded.book, &mut loaded.pair, view, limit, files, out),
        Err(Failed) => Err(RunError::Read),
    }
}
