// The alerts of the procedure lines.
ghost use Rattle.std.specs.Prelude.{IfOk};
ghost use Rattle.book_model.specs.Sealed.{the_book};
ghost use Rattle.fwc_lane.specs.LineFlags.{AreLineAlerts};

use book_model::Book;
use std::alloc::{AllocError, Global};

/// Per procedure line of a book the alert that has it. Its cost is a look at each alert and a write a line. An error is want
/// of memory.
pub fn alerts_of_lines(alloc: Global, book: &Book) -> Result<Vec<u32>, AllocError>
    ensures { IfOk result (λ each. AreLineAlerts (the_book book.now) each.items) }
{
    let alerts = book.alerts();
    let mut each = Vec::new(alloc);
    for alert in 0..alerts.len() {
        each.resize(each.len() + alerts[alert].lines.len(), alert as u32)?;
    }
    Ok(each)
}
