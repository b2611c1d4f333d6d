// What is kept of one advisory: how long its value has been out, and whether it drifts.
ghost use Rattle.std.specs.Prelude.{◌≡◌, ◌&&◌, ◌||◌, not, nat_lt, is_some};
ghost use Rattle.ecam_spec.specs.Term.{is_so};
ghost use Rattle.view_spec.specs.Advisories as spec;
ghost use Rattle.advisories.specs.View.{advisory_of};
ghost use Rattle.advisories.specs.Drifts.{next_run};
ghost use Rattle.advisories.specs.Watches.{at_rest, next_drift};

use crate::limits::Advisory;
use crate::sums::{difference, sum};

/// What the moments so far leave of an advisory for the next.
#[derive(Clone, Copy, Debug, PartialEq, Eq)]
pub(crate) struct Drift {
    /// In how many moments in a row, up to the last, the value was out of its range. It ends at one more than `confirm`.
    pub(crate) run: u64,
    /// The value drifts in the last moment.
    pub(crate) drifts: bool,
}

fn is_outside(advisory: &Advisory, value: i64) -> bool
    ensures { result ≡ spec.is_outside (advisory_of advisory.now) value }
{
    value < advisory.low || advisory.high < value
}

fn is_well_inside(advisory: &Advisory, value: i64) -> bool
    ensures { result ≡ spec.is_well_inside (advisory_of advisory.now) value }
{
    let value = i128::from(value);
    sum(advisory.low, advisory.margin) <= value
        && value <= difference(advisory.high, advisory.margin)
}

fn is_out(advisory: &Advisory, value: Option<i64>) -> bool
    ensures { result ≡ is_so (spec.is_outside (advisory_of advisory.now)) value }
{
    let Some(value) = value else {
        return false;
    };
    is_outside(advisory, value)
}

// Whether there is a value that isn't back.
fn stays(advisory: &Advisory, value: Option<i64>) -> bool
    ensures { result ≡ (is_some value
        && not (is_so (spec.is_well_inside (advisory_of advisory.now)) value)) }
{
    match value {
        Some(value) => !is_well_inside(advisory, value),
        None => false,
    }
}

// Whether a run is as long as it has to be.
fn is_long(run: u64, confirm: u32) -> bool
    ensures { result ≡ nat_lt confirm run }
{
    run > u64::from(confirm)
}

impl Drift {
    /// Before the first moment.
    pub(crate) fn new() -> Drift
        ensures { result ≡ at_rest }
    {
        Drift {
            run: 0,
            drifts: false,
        }
    }

    /// After one moment more, in which the parameter has this value or none.
    pub(crate) fn next(self, advisory: &Advisory, value: Option<i64>) -> Drift
        ensures { result ≡ next_drift (advisory_of advisory.now) value self }
    {
        let run = self.next_run(advisory.confirm, is_out(advisory, value));
        Drift {
            run,
            drifts: self.drifts_on(is_long(run, advisory.confirm), stays(advisory, value)),
        }
    }

    // Whether the value drifts after a moment in which it has been out for long enough, or isn't back.
    fn drifts_on(self, begins: bool, stays: bool) -> bool
        ensures { result ≡ (begins || (stays && self.drifts)) }
    {
        begins || (stays && self.drifts)
    }

    // The run after a moment in which the value is out of its range, or isn't.
    fn next_run(self, confirm: u32, out: bool) -> u64
        ensures { result ≡ next_run confirm out self.run }
    {
        if !out {
            0
        } else if self.run <= u64::from(confirm) {
            self.run + 1
        } else {
            self.run
        }
    }
}
