// What each kind of temporal node keeps, what it says in one more moment, and when it turns by itself.
ghost use Rattle.std.specs.Prelude.{◌≡◌, ◌+◌, ◌<◌, ◌^◌, ◌&&◌, ◌||◌, not, min, nat_le, nat_lt, if◌then◌else◌};
ghost use Rattle.term_eval.specs.CellWords.{never, on_if, is_on, at_last, start_by, last_by, end_of};
ghost use Rattle.term_eval.specs.declared.memory.Cell.TheVariants.{Off, On, At};

use crate::turn::{NEVER, Turn};

/// What a temporal node remembers of the moments so far.
#[derive(Clone, Copy, Debug, PartialEq, Eq)]
pub enum Cell {
    /// Nothing held.
    Off,
    /// It held in the last moment.
    On,
    /// The number of a moment: that in which a stretch started, or in which a condition held last.
    At(u64),
}

/// The cell keeps the moment in which the unbroken stretch of the condition started.
pub fn confirm(cell: &mut Cell, now: bool, moments: u32, moment: u64) -> Turn
    ensures truth { result.holds ≡ (now && nat_le (min (start_by cell.old moment + moments) never)
        moment) }
    ensures due { result.due ≡ (if now
        then (if nat_le (min (start_by cell.old moment + moments) never) moment
        then never else min (start_by cell.old moment + moments) never)
        else never) }
    ensures cell { cell.new ≡ (if now then At (start_by cell.old moment) else Off) }
    ensures few { moments < 2 ^ 32 }
{
    let start = start_by(*cell, moment);
    if !now {
        *cell = Cell::Off;
        return Turn {
            holds: false,
            due: NEVER,
        };
    }
    *cell = Cell::At(start);
    let full = start.saturating_add(u64::from(moments));
    Turn {
        holds: full <= moment,
        due: if full <= moment { NEVER } else { full },
    }
}

/// The cell is on while the condition holds, and then keeps the moment in which it held last.
pub fn hold(cell: &mut Cell, now: bool, moments: u32, moment: u64) -> Turn
    ensures truth { result.holds ≡ (now || nat_lt moment
        (end_of (last_by cell.old moment) moments)) }
    ensures due { result.due ≡ (if now then never
        else (if nat_lt moment (end_of (last_by cell.old moment) moments)
        then end_of (last_by cell.old moment) moments else never)) }
    ensures cell { cell.new ≡ (if now then On else at_last (last_by cell.old moment)) }
    ensures few { moments < 2 ^ 32 }
{
    let last = last_by(*cell, moment);
    if now {
        *cell = Cell::On;
        return Turn {
            holds: true,
            due: NEVER,
        };
    }
    *cell = at_last(last);
    let end = end_of(last, moments);
    Turn {
        holds: moment < end,
        due: if moment < end { end } else { NEVER },
    }
}

/// The cell is on where the condition held in the moment before.
pub fn rise(cell: &mut Cell, now: bool, moment: u64) -> Turn
    ensures truth { result.holds ≡ (now && not (is_on cell.old)) }
    ensures due { result.due ≡ (if now && not (is_on cell.old) then min (moment + 1) never
        else never) }
    ensures cell { cell.new ≡ on_if now }
{
    let holds = now && !is_on(*cell);
    *cell = on_if(now);
    Turn {
        holds,
        due: if holds {
            moment.saturating_add(1)
        } else {
            NEVER
        },
    }
}

/// The cell is on where the latch held in the moment before.
pub fn latch(cell: &mut Cell, set: bool, reset: bool) -> bool
    ensures truth { result ≡ (not reset && (set || is_on cell.old)) }
    ensures cell { cell.new ≡ on_if result }
{
    let latched = !reset && (set || is_on(*cell));
    *cell = on_if(latched);
    latched
}

// The moment in which the stretch started that goes on in this moment.
fn start_by(cell: Cell, moment: u64) -> u64
    ensures { result ≡ start_by cell moment }
{
    match cell {
        Cell::Off => moment,
        Cell::On => moment,
        Cell::At(start) => start,
    }
}

// The last moment before this one in which the condition held.
fn last_by(cell: Cell, moment: u64) -> Option<u64>
    ensures { result ≡ last_by cell moment }
{
    match cell {
        Cell::Off => None,
        Cell::On => Some(moment.saturating_sub(1)),
        Cell::At(last) => Some(last),
    }
}

fn at_last(last: Option<u64>) -> Cell
    ensures { result ≡ at_last last }
{
    match last {
        None => Cell::Off,
        Some(last) => Cell::At(last),
    }
}

// The first moment in which so many moments have gone since the last one.
fn end_of(last: Option<u64>, moments: u32) -> u64
    ensures { result ≡ end_of last moments }
{
    match last {
        None => 0,
        Some(last) => last.saturating_add(u64::from(moments)).saturating_add(1),
    }
}

fn is_on(cell: Cell) -> bool
    ensures { result ≡ is_on cell }
{
    matches!(cell, Cell::On)
}

fn on_if(on: bool) -> Cell
    ensures { result ≡ on_if on }
{
    if on { Cell::On } else { Cell::Off }
}
