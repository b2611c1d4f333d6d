// The callouts, moment by moment.
ghost use Rattle.std.specs.Prelude.{◌≡◌, ◌&&◌, ℕ, suc, Bool, ℤ, Option, [], find};
ghost use Rattle.ecam_spec.specs.Book as plain;
ghost use Rattle.view_spec.specs.Callouts.{heights, is_at_most, call};
ghost use Rattle.callouts.specs.State.{AreArmed, rearmed, CalloutsStand, StandAfter};

use crate::heights::{COUNT, height, is_crossed, rearmed};

/// What the moments so far leave of the callouts of a parameter for the next. It takes no memory, and nothing grows with
/// the history.
#[derive(Clone, Copy, Debug, PartialEq, Eq)]
pub struct Callouts {
    // The parameter, by its place in the book.
    pub(crate) param: u32,
    // Per height whether it is armed: it is called when the value comes down to it.
    pub(crate) armed: [bool; COUNT],
    // How many Ticks there were.
    pub(crate) ticks: u64,
}

impl Callouts {
    /// The callouts of a parameter, by its place in the book, before the first moment.
    pub fn new(param: u32) -> Callouts
        ensures param { result.param ≡ param }
        ensures ticks { result.ticks ≡ 0 }
        ensures stands { (values : ℕ → Option ℤ) → CalloutsStand values 0 result }
        ensures begins { (b : plain.Book) → StandAfter b [] result }
    {
        Callouts {
            param,
            armed: [false; COUNT],
            ticks: 0,
        }
    }

    /// Forgets all moments, but not how many Ticks there were.
    pub fn clear(&mut self)
        ensures param { self.new.param ≡ self.old.param }
        ensures ticks { self.new.ticks ≡ self.old.ticks }
        ensures stands { (values : ℕ → Option ℤ) → CalloutsStand values 0 self.new }
    {
        self.armed = [false; COUNT];
    }

    /// Takes one moment more, in which the parameter has this value or none, and answers the height that is called in
    /// it, in feet, or none. Costs a look at each height.
    pub fn step(&mut self, value: Option<i64>) -> Option<u32>
        ensures param { self.new.param ≡ self.old.param }
        ensures ticks { self.new.ticks ≡ self.old.ticks }
        // Whatever the values of the moments before were, the answer is the call of this one,
        ensures call { (values : ℕ → Option ℤ) (k : ℕ) → CalloutsStand values k self.old
            → value ≡ values k → result ≡ call values k }
        // and the state then stands for one more.
        ensures stands { (values : ℕ → Option ℤ) (k : ℕ) → CalloutsStand values k self.old
            → value ≡ values k → CalloutsStand values (suc k) self.new }
    {
        let call = self.least_crossed(value);
        self.rearm(value);
        call
    }

    // The least of the armed heights that are at or above this value.
    fn least_crossed(&self, value: Option<i64>) -> Option<u32>
        ensures { (armed : ℕ → Bool) → AreArmed armed self.now
            → result ≡ find (λ h. is_at_most h value && armed h) heights }
    {
        for i in 0..COUNT {
            if is_crossed(height(i), self.armed[i], value) {
                return Some(height(i));
            }
        }
        None
    }

    // Notes of each height whether it is armed after a moment with this value.
    fn rearm(&mut self, value: Option<i64>)
        ensures param { self.new.param ≡ self.old.param }
        ensures ticks { self.new.ticks ≡ self.old.ticks }
        ensures armed { (armed : ℕ → Bool) → AreArmed armed self.old
            → AreArmed (λ h. rearmed value h (armed h)) self.new }
    {
        for i in 0..COUNT {
            self.armed[i] = rearmed(height(i), self.armed[i], value);
        }
    }
}
