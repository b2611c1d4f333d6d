// One alert in one moment.
ghost use Rattle.std.specs.Prelude.{◌≡◌, ℕ, suc};
ghost use Rattle.ecam_spec.specs.Past.{Signal, previous, running_since};
ghost use Rattle.ecam_spec.specs.Alert as alert;
ghost use Rattle.alert_truth.specs.Confirming.{confirmed_at};

/// Since which moment a condition has held without a break, where it has held since `before` up to the moment
/// before now.
pub fn since_when(before: Option<u64>, cond: bool, now: u64) -> Option<u64>
    ensures { (p : Signal) → before ≡ running_since p now → cond ≡ p now
        → result ≡ running_since p (suc now) }
{
    if cond { before.or(Some(now)) } else { None }
}

/// An alert is present where its condition has held now and in each of `confirm` moments before.
pub fn is_present(since: Option<u64>, confirm: u32, now: u64) -> bool
    ensures { (p : Signal) → since ≡ running_since p (suc now)
        → result ≡ alert.present confirm p now }
{
    match since {
        Some(start) => now.saturating_sub(start) >= u64::from(confirm),
        None => false,
    }
}

/// An alert that is present is active where it was active in the moment before, or isn't inhibited now.
pub fn is_active(present: bool, was_active: bool, inhibited: bool) -> bool
    ensures { (inhibits p : Signal) (k : ℕ) → was_active ≡ previous (alert.active inhibits p) k
        → inhibited ≡ inhibits k → present ≡ p k → result ≡ alert.active inhibits p k }
{
    present && (was_active || !inhibited)
}

/// The moment from which an alert is present if its condition, which has held since then, goes on holding. One that is present
/// already, or whose condition doesn't hold, has none.
pub fn confirmed_at(since: Option<u64>, present: bool, confirm: u32) -> u64
    ensures { result ≡ confirmed_at confirm since present }
{
    match since {
        Some(start) if !present => start.saturating_add(u64::from(confirm)),
        _ => u64::MAX,
    }
}
