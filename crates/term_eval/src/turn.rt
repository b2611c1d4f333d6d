// What one step of a condition tells, and how the due moments of its nodes come together.
ghost use Rattle.std.specs.Prelude.{◌≡◌, min};
ghost use Rattle.term_eval.specs.CellWords.{never};

/// The due moment of what doesn't turn by itself.
pub const NEVER: u64 = u64::MAX;

/// What a condition says in a moment, and until when it says so by itself.
#[derive(Clone, Copy, Debug, PartialEq, Eq)]
pub struct Turn {
    /// The condition holds in the moment.
    pub holds: bool,
    /// The number of the first moment after it in which, with every operand as it is now, one of the condition's
    /// temporal nodes has another truth than in the moment before; 2^64 - 1 where there is none.
    pub due: u64,
}

/// The turn of what rests until an operand moves.
pub fn lasting(holds: bool) -> Turn
    ensures holds { result.holds ≡ holds }
    ensures due { result.due ≡ never }
{
    Turn { holds, due: NEVER }
}

/// The same, with a due moment that another part of the condition has.
pub fn sooner(turn: Turn, due: u64) -> Turn
    ensures holds { result.holds ≡ turn.holds }
    ensures due { result.due ≡ min turn.due due }
{
    Turn {
        holds: turn.holds,
        due: turn.due.min(due),
    }
}
