// Where an alert stands, by what a computer holds of it.
ghost use Rattle.std.specs.Prelude.{◌≡◌, ◌<◌, false, length, get_or};
ghost use Rattle.ecam_spec.specs.declared.kinds.Standing.TheVariants.{Quiet};
ghost use Rattle.ecam_spec.specs.Standing as spec;
ghost use Rattle.book_model.specs.Sealed.{the_book};
ghost use Rattle.fwc_lane.specs.LaneFits.{LaneFits};
ghost use Rattle.fwc_pair.specs.Standings.{TellsFacts};

use crate::title::title_row;
use book_model::Book;
pub use ecam_spec::Standing;
use fwc_lane::Lane;

/// Where an alert stands in the last moment of a computer that is up.
pub(crate) fn standing_by(lane: &Lane, book: &Book, alert: usize) -> Standing
    requires fits { LaneFits (the_book book.now) lane.now }
    requires alert { alert < length book.now.alerts.items }
    ensures told { (f : spec.Facts) → TellsFacts (the_book book.now) lane.now alert f
        → result ≡ spec.standing_of f }
    ensures quiet { get_or lane.now.truths.present.items alert false ≡ false → result ≡ Quiet }
{
    let present = lane.truths.present()[alert];
    let active = lane.truths.active()[alert];
    let shown = lane.marks.shown()[alert];
    if !present {
        return Standing::Quiet;
    }
    if !active & !shown {
        return Standing::Waiting;
    }
    if let Some(primary) = lane.truths.starred_by(alert) {
        return Standing::Starred { primary };
    }
    if lane.marks.cancelled()[alert] {
        return Standing::Cancelled;
    }
    if lane.marks.cleared()[alert] {
        return Standing::Cleared;
    }
    match title_row(book, lane.marks.shown(), &lane.lines, alert) {
        Some(row) => Standing::Titled { row },
        None => Standing::Counted,
    }
}
