// What a condition is asked in.
ghost use Rattle.std.specs.Prelude.{◌≡◌, ◌<◌, ◌≤◌, ◌==◌, length, pos, is_some, if◌then◌else◌};
ghost use Rattle.std.specs.Ordering.{int_eq};
ghost use Rattle.ecam_spec.specs.Term.{is_so, stands};
ghost use Rattle.term_eval.specs.Shown.{value_of, is_active};

use ecam_kinds::{Keys, Phase};
use term_tree::Op;

/// What a flight warning computer knows in one moment. It lends its lists, and copies nothing.
#[derive(Clone, Copy, Debug)]
pub struct Env<'a> {
    /// Per parameter its value: 0 or 1 for a discrete, else a number in the parameter's unit.
    pub values: &'a [Option<i64>],
    /// The flight phase.
    pub phase: Phase,
    /// Per alert whether it is active.
    pub active: &'a [bool],
    /// The keys that are pressed.
    pub keys: &'a Keys,
    /// Flight warning computer 1 is up.
    pub one_up: bool,
    /// Flight warning computer 2 is up.
    pub two_up: bool,
}

impl Env<'_> {
    /// The parameter's value is 1.
    pub fn is_one(&self, param: u32) -> bool
        requires { param < length self.now.values.now }
        ensures { result ≡ is_so (int_eq (pos 1)) (value_of self.now param) }
    {
        self.values[param as usize] == Some(1)
    }

    /// The parameter has a value.
    pub fn has_value(&self, param: u32) -> bool
        requires { param < length self.now.values.now }
        ensures { result ≡ is_some (value_of self.now param) }
    {
        self.values[param as usize].is_some()
    }

    /// The parameter has a value, which stands so to the number.
    pub fn compares(&self, param: u32, op: Op, number: i64) -> bool
        requires { param < length self.now.values.now }
        ensures { result ≡ is_so (λ value. stands op value number) (value_of self.now param) }
    {
        match self.values[param as usize] {
            Some(value) => stands(op, value, number),
            None => false,
        }
    }

    /// The alert is active.
    pub fn is_active(&self, alert: u32) -> bool
        requires { alert < length self.now.active.now }
        ensures { result ≡ is_active self.now alert }
    {
        self.active[alert as usize]
    }

    /// Computer 1 or 2 is up.
    pub fn is_up(&self, computer: u8) -> bool
        requires first { 1 ≤ computer }
        requires last { computer ≤ 2 }
        ensures { result ≡ (if computer == 1 then self.now.one_up else self.now.two_up) }
    {
        if computer == 1 {
            self.one_up
        } else {
            self.two_up
        }
    }
}

// The first number stands so to the second.
pub(crate) fn stands(op: Op, value: i64, number: i64) -> bool
    ensures { result ≡ stands op value number }
{
    match op {
        Op::Less => value < number,
        Op::LessEq => value <= number,
        Op::More => value > number,
        Op::MoreEq => value >= number,
        Op::Equal => value == number,
        Op::Differ => value != number,
    }
}
