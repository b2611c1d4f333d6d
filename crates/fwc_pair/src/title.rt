// The row of an alert's title.
ghost use Rattle.std.specs.Prelude.{◌≡◌, ◌+◌, ◌*◌, ◌<◌, ◌≤◌, ℕ, Bool, length, count_by, take, drop};
ghost use Rattle.ecam_spec.specs.declared.limits.TheConstants.{ALERTS, LINES};
ghost use Rattle.ecam_spec.specs.Book as plain;
ghost use Rattle.ecam_spec.specs.BookTerms.{lines_of};
ghost use Rattle.ecam_spec.specs.Situation.{alert_at};
ghost use Rattle.ecam_spec.specs.LeftZone as zone;
ghost use Rattle.book_model.specs.Sealed.{the_book};
ghost use Rattle.book_model.specs.Told.{TellsOf, flagged};
ghost use Rattle.warning_display.specs.LeftRows.{in_order, blocks};
ghost use Rattle.fwc_pair.specs.TitlePlaces.{in_zone};

use book_model::Book;

// How many rows the left zone has.
const ZONE: usize = 7;

// How many of these flags are set.
fn count_set(flags: &[bool]) -> usize
    ensures count { result ≡ count_by (λ b. b) flags.now }
    ensures few { result ≤ length flags.now }
{
    let mut count = 0;
    for i in 0..flags.len() {
        if flags[i] {
            count += 1;
        }
    }
    count
}

// So many flags, from a place on.
fn part(flags: &[bool], from: usize, count: usize) -> &[bool]
    requires { from + count ≤ length flags.now }
    ensures { result.now ≡ take count (drop from flags.now) }
{
    let behind = &flags[from..];
    &behind[..count]
}

// How many rows an alert has: its title, and the lines under it that stand.
fn rows_of(book: &Book, alert: usize, lines: &[bool]) -> usize
    requires alert { alert < length book.now.alerts.items }
    requires lines { length lines.now ≡ length (lines_of (the_book book.now).alerts) }
    ensures count { (stands : plain.Line → Bool)
        → TellsOf lines.now (lines_of (the_book book.now).alerts) stands
        → result ≡ length (zone.alert_rows stands alert (alert_at (the_book book.now) alert)) }
    ensures few { result ≤ ALERTS * LINES + 1 }
{
    let own = &book.alerts()[alert];
    count_set(part(lines, book.line_at(alert), own.lines.len())) + 1
}

/// The row in which an alert's title stands, 1 to 7: the rows of the shown alerts before it, in order, are counted.
/// `None` where it stands beyond the seventh row or isn't shown. Costs a look at each alert before it, and at the lines
/// of those that are shown, up to the seventh row.
pub(crate) fn title_row(book: &Book, shown: &[bool], lines: &[bool], alert: usize) -> Option<u8>
    requires shown { length shown.now ≡ length book.now.alerts.items }
    requires lines { length lines.now ≡ length (lines_of (the_book book.now).alerts) }
    ensures { (stands : plain.Line → Bool) → TellsOf lines.now (lines_of (the_book book.now).alerts)
        stands
        → result ≡ in_zone (zone.title_row alert
        (blocks (the_book book.now) stands (in_order (the_book book.now) (flagged shown.now)))) }
{
    let order = book.order();
    let mut count = 0;
    for i in 0..order.len() {
        let other = order[i] as usize;
        if !shown[other] {
            continue;
        }
        if other == alert {
            return Some(count as u8 + 1);
        }
        count += rows_of(book, other, lines);
        if count >= ZONE {
            return None;
        }
    }
    None
}
