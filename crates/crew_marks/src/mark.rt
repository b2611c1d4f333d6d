// What the crew made of one alert.
ghost use Rattle.std.specs.Prelude.{◌≡◌, Bool, not, ◌&&◌, ◌||◌};
ghost use Rattle.crew_marks.specs.MarkSets.{is_marked, is_touched};
ghost use Rattle.crew_marks.specs.MarkStep.{is_struck, is_called_off, cleared_after, cancelled_after, recalled_after, shown_by, mark_after, acts, actions_of};

use ecam_kinds::{Key, Keys};

/// What the crew made of an alert up to a moment.
#[derive(Clone, Copy, Debug, PartialEq, Eq)]
pub struct Mark {
    /// It was struck by CLR, is up since, and RCL wasn't pressed since.
    pub cleared: bool,
    /// It was called off by EMER CANC, and nothing restored it since.
    pub cancelled: bool,
    /// RCL was pressed while it waited, and it waits since without being struck.
    pub recalled: bool,
    /// It is shown.
    pub shown: bool,
}

/// An alert in one moment.
#[derive(Clone, Copy, Debug)]
pub struct Sight {
    /// It is up.
    pub up: bool,
    /// It waits.
    pub waiting: bool,
    /// It is of level 1 or 2.
    pub is_caution: bool,
    /// CLR and EMER CANC act on it.
    pub is_target: bool,
}

/// What the crew and the flight do in one moment.
#[derive(Clone, Copy, Debug)]
pub struct Actions {
    /// CLR is pressed.
    pub clr: bool,
    /// RCL is pressed.
    pub rcl: bool,
    /// EMER CANC is pressed.
    pub emer: bool,
    /// A long recall, or the start of phase 1, ends what was cancelled before.
    pub restores: bool,
}

impl Mark {
    /// Whether something is marked.
    pub fn is_marked(self) -> bool
        ensures { result ≡ is_marked self }
    {
        self.cleared || self.cancelled || self.recalled || self.shown
    }

    /// Whether the crew made something of the alert.
    pub fn is_touched(self) -> bool
        ensures { result ≡ is_touched self }
    {
        self.cleared || self.cancelled || self.recalled
    }

    /// What the crew made of the alert with one moment more.
    pub fn next(self, sight: &Sight, actions: &Actions) -> Mark
        ensures { result ≡ mark_after self sight.now actions.now }
    {
        let cleared = self.next_cleared(sight, actions);
        let cancelled = self.next_cancelled(sight, actions);
        let recalled = self.next_recalled(sight, actions);
        Mark {
            cleared,
            cancelled,
            recalled,
            shown: is_shown(sight.up, cleared, cancelled, recalled),
        }
    }

    fn next_cleared(self, sight: &Sight, actions: &Actions) -> bool
        ensures { result ≡ cleared_after self.cleared sight.now actions.now }
    {
        sight.up && (sight.is_struck(actions) || (self.cleared && !actions.rcl))
    }

    fn next_cancelled(self, sight: &Sight, actions: &Actions) -> bool
        ensures { result ≡ cancelled_after self.cancelled sight.now actions.now }
    {
        sight.is_caution && (sight.is_called_off(actions) || (self.cancelled && !actions.restores))
    }

    fn next_recalled(self, sight: &Sight, actions: &Actions) -> bool
        ensures { result ≡ recalled_after self.recalled sight.now actions.now }
    {
        sight.waiting && !sight.is_struck(actions) && (actions.rcl || self.recalled)
    }
}

impl Sight {
    fn is_struck(&self, actions: &Actions) -> bool
        ensures { result ≡ is_struck self.now actions.now }
    {
        actions.clr && self.is_target
    }

    fn is_called_off(&self, actions: &Actions) -> bool
        ensures { result ≡ is_called_off self.now actions.now }
    {
        actions.emer && self.is_target
    }
}

impl Actions {
    /// Whether a mark may change by them.
    pub fn act(&self) -> bool
        ensures { result ≡ acts self.now }
    {
        self.clr || self.rcl || self.emer || self.restores
    }
}

fn is_shown(up: bool, cleared: bool, cancelled: bool, recalled: bool) -> bool
    ensures { result ≡ shown_by up cleared cancelled recalled }
{
    !cancelled && ((up && !cleared) || recalled)
}

/// What the crew does by these keys, where cancellations end or go on.
pub fn actions_of(keys: &Keys, restores: bool) -> Actions
    ensures { result ≡ actions_of keys.now restores }
{
    Actions {
        clr: keys.pressed(Key::Clr),
        rcl: keys.pressed(Key::Rcl),
        emer: keys.pressed(Key::Emer),
        restores,
    }
}
