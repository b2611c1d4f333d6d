// A whole replay: the record line by line, and the block of each Tick.
ghost use Rattle.std.specs.Prelude.{◌≡◌, ◌≢◌, ◌≤◌, ℕ, List, IfOk, OnOk, Err, Some};
ghost use Rattle.ecam_io.specs.Outside.{Rose, Appended};
ghost use Rattle.ecam_spec.specs.Record.{events};
ghost use Rattle.ecam_spec.specs.Replay.{reply};
ghost use Rattle.book_model.specs.Sealed.{the_book};
ghost use Rattle.fwc_pair.specs.PairState.{PairFits};
ghost use Rattle.fwc_pair.specs.PairVisits.{history_visits, HaveVisited};
ghost use Rattle.record_lines.specs.Reads.{Makes};
ghost use Rattle.record_views.specs.Runs.{Runs, HasAsked};
ghost use Rattle.replay_core.specs.Unaffected.{IsUnaffected, DropsFailures};

use crate::changes::Changes;
use book_model::Book;
use ecam_io::{Sink, Source};
use fwc_pair::Pair;
use record_views::{RunError, run_view};

/// Replays a record under a limit on its bytes from the pair's start, and answers the number of its Ticks. The pair
/// was made for this book. `Ok` has written the whole reply, and the pair then stands where the record ends. After
/// `Read` the blocks of all Ticks that came are written, after `Write` a prefix of the reply, and after `Record` the
/// blocks before the record's fault. It takes no memory, and reads pieces of 4096 bytes, none behind the one in which it
/// meets a fault or a write fails. Blocks are gathered in 65536 bytes, which the sink is handed where the next block
/// might not fit, before each read, and at the end. A Tick costs what it costs the pair, and a copy of each row that
/// changed.
pub fn run<S: Source, O: Sink>(
    book: &Book,
    pair: &mut Pair,
    limit: u32,
    source: &mut S,
    out: &mut O,
) -> Result<u64, RunError>
    requires fits { PairFits (the_book book.now) pair.old }
    ensures fits { PairFits (the_book book.now) pair.new }
    ensures runs { Runs (the_book book.now) O.agrees out.old out.new pair.new limit
        (S.left source.old) (S.left source.new) result }
    // While one computer stays up, what is written is the reply of the record without the lines on which they fail.
    ensures unaffected { IfOk result (λ n. (text bare : List ℕ) → S.left source.old ≡ Some text
        → IsUnaffected (the_book book.now) (events text limit) → DropsFailures text bare limit
        → Appended O.agrees out.old out.new (reply (the_book book.now) bare limit)) }
    // Each computer visits, of the conditions' nodes, what the Ticks have to visit at which it is up.
    ensures visits { OnOk result ((text : List ℕ) → S.left source.old ≡ Some text
        → HaveVisited (history_visits (the_book book.now) (events text limit)) pair.old pair.new) }

    ensures read { result ≡ Err RunError.Read → Rose (S.faults source.old) (S.faults source.new) }
    ensures write { result ≡ Err RunError.Write → Rose (O.faults out.old) (O.faults out.new) }
    ensures asks { Makes S.reads source.old source.new (HasAsked result) }
    ensures faults { S.faults source.old ≤ S.faults source.new }
    ensures quiet { result ≢ Err RunError.Read → S.faults source.new ≡ S.faults source.old }
    ensures out_faults { O.faults out.old ≤ O.faults out.new }
    ensures out_quiet { result ≢ Err RunError.Write → O.faults out.new ≡ O.faults out.old }
    ensures is_open { S.is_open source.new ≡ S.is_open source.old }
    ensures files { S.files source.new ≡ S.files source.old }
    ensures opens { S.opens source.new ≡ S.opens source.old }
{
    run_view(book, pair, &mut Changes::new(), limit, source, out)
}
