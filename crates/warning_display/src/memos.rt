// The memos of a zone.
ghost use Rattle.std.specs.Prelude.{◌≡◌, ◌+◌, ◌≤◌, ◌<◌, ◌^◌, ◌&&◌, Bool, [], ◌∷◌, map, length, if◌then◌else◌};
ghost use Rattle.ecam_spec.specs.Book as plain;
ghost use Rattle.book_model.specs.View.{memo_of};
ghost use Rattle.zone_rows.specs.Tracked.{tracked, IsWhole};
ghost use Rattle.book_model.specs.Told.{TellsOf};
ghost use Rattle.warning_display.specs.Counted.{Adds};
ghost use Rattle.warning_display.specs.Memos.{is_of, memo_row, memo_rows};

use crate::counted::put_counted;
use book_model::Memo;
use ecam_kinds::{ROWS, Row};

fn put_memo(
    rows: &mut [Row],
    changed: &mut [bool],
    first: usize,
    total: usize,
    memo: &Memo,
    left: bool,
    holds: bool,
) -> usize
    requires whole { IsWhole (tracked rows.old changed.old) }
    requires zone { first + 7 ≤ ROWS }
    requires few { total < 2 ^ 63 }
    ensures whole { IsWhole (tracked rows.new changed.new) }
    ensures row { Adds first (if is_of left (memo_of memo.now) && holds
        then memo_row (memo_of memo.now) ∷ [] else []) total result
        (tracked rows.old changed.old) (tracked rows.new changed.new) }
{
    if memo.left != left {
        return total;
    }
    if !holds {
        return total;
    }
    put_counted(
        rows,
        changed,
        first,
        total,
        memo.colour,
        memo.text.as_str().as_bytes(),
    )
}

/// Puts the memos of the left or the right zone that hold behind so many rows of the zone that begins at `first`,
/// and answers how many they are then. Costs a look at each memo.
pub(crate) fn put_memos(
    rows: &mut [Row],
    changed: &mut [bool],
    first: usize,
    total: usize,
    memos: &[Memo],
    left: bool,
    holds: &[bool],
) -> usize
    requires whole { IsWhole (tracked rows.old changed.old) }
    requires zone { first + 7 ≤ ROWS }
    requires few { total + length memos.now < 2 ^ 63 }
    requires told { length holds.now ≡ length memos.now }
    ensures whole { IsWhole (tracked rows.new changed.new) }
    ensures few { result ≤ total + length memos.now }
    ensures rows { (test : plain.Memo → Bool) → TellsOf holds.now (map memo_of memos.now) test
        → Adds first (memo_rows left test (map memo_of memos.now)) total result
        (tracked rows.old changed.old) (tracked rows.new changed.new) }
{
    let mut total = total;
    for i in 0..memos.len() {
        total = put_memo(rows, changed, first, total, &memos[i], left, holds[i]);
    }
    total
}
