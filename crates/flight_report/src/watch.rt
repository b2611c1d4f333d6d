// What a moment leaves for the next.
ghost use Rattle.std.specs.Prelude.{◌≡◌, ◌==◌, ◌&&◌, not, ℕ, suc, Bool, List, length, IfOk};
ghost use Rattle.std.specs.Box.{boxed_slice_items};
ghost use Rattle.ecam_spec.specs.Past.{Signal};
ghost use Rattle.ecam_spec.specs.Book as plain;
ghost use Rattle.view_spec.specs.FlightReport.{Course, begins};
ghost use Rattle.alert_truth.specs.Alerts.{Tells};
ghost use Rattle.flight_report.specs.Kept.{Watches, WatchStands, Comes};

use ecam_kinds::Phase;
use std::alloc::{AllocError, Global};
use std::boxed::BoxedSlice;

/// What the last moment of an era leaves for the next.
#[derive(Drop)]
pub(crate) struct Watch {
    // Its flight phase; before the first moment there is none.
    phase: Option<Phase>,
    // Per alert whether it was up in it.
    up: BoxedSlice<bool>,
}

impl Watch {
    /// Before the first moment. An error is want of memory.
    pub fn new(alloc: Global, alerts: usize) -> Result<Watch, AllocError>
        ensures fits { IfOk result (Watches alerts) }
        ensures stands { IfOk result (λ w. (up : ℕ → Signal) (phases : ℕ → ℕ)
            → WatchStands alerts up phases 0 w) }
    {
        let up = vec![in alloc; false; alerts]?;
        Ok(Watch {
            phase: None,
            up: up.into_boxed_slice(),
        })
    }

    /// Forgets the moments of an era that has ended. Costs a write for each alert.
    pub fn forget(&mut self)
        ensures fits { (n : ℕ) → Watches n self.old → Watches n self.new }
        ensures stands { (n : ℕ) (up : ℕ → Signal) (phases : ℕ → ℕ) → Watches n self.old
            → WatchStands n up phases 0 self.new }
    {
        self.phase = None;
        self.up.as_mut_slice().fill(false);
    }

    /// Whether a moment with this flight phase begins a flight: it is the first of its era, or it enters phase 1.
    pub fn begins_flight(&self, phase: Phase) -> bool
        ensures { (b : plain.Book) (c : Course) (n : ℕ) (up : List Bool)
            → Comes b c n phase.number up self.now → result ≡ begins c n }
    {
        match self.phase {
            Some(before) => enters_one(before, phase),
            None => true,
        }
    }

    /// Per alert whether it was up in the last moment.
    pub fn up(&self) -> &[bool]
        ensures { result.now ≡ boxed_slice_items self.now.up }
    {
        self.up.as_slice()
    }

    /// Takes one moment more: its flight phase, and per alert whether it is up in it. Costs a write for each alert.
    pub fn take(&mut self, phase: Phase, up: &[bool])
        requires { Watches (length up.now) self.old }
        ensures fits { Watches (length up.now) self.new }
        ensures stands { (ups : ℕ → Signal) (phases : ℕ → ℕ) (k : ℕ) → phase.number ≡ phases k
            → Tells (length up.now) up.now ups (suc k)
            → WatchStands (length up.now) ups phases (suc k) self.new }
    {
        self.phase = Some(phase);
        self.up.as_mut_slice().copy_from_slice(up);
    }
}

// A moment of one flight phase follows on a moment of another, and enters phase 1.
fn enters_one(before: Phase, phase: Phase) -> bool
    ensures { result ≡ (phase.number == 1 && not (before.number == 1)) }
{
    phase.number == 1 && before.number != 1
}
