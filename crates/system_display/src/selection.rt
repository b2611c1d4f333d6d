// What is shown, and how a moment changes it.
ghost use Rattle.std.specs.Prelude.{◌≡◌, ◌<◌, ℕ, suc, Option, None, IfSome};
ghost use Rattle.ecam_spec.specs.Past.{running_since};
ghost use Rattle.ecam_spec.specs.Selection.{Panel, selecting, selecting_one};
ghost use Rattle.system_display.specs.Panels.{AreInputs, CallsItsPages};
ghost use Rattle.system_display.specs.Selecting.{IsSelection, IsChoiceOf, page_of_all};

use crate::inputs::Inputs;
use ecam_spec::Choice;

/// For how many moments ALL shows each page: one second.
const TURN: u64 = 10;

/// What is shown, and the number of the status page that STS shows next, from 0.
#[derive(Clone, Copy, Debug, PartialEq, Eq)]
pub struct Selection {
    pub choice: Choice,
    pub next_status: u32,
}

impl Selection {
    /// Before the first moment.
    pub fn new() -> Selection
        ensures selection { (p : Panel) → IsSelection p 0 result }
        ensures choice { (pages : ℕ) → IsChoiceOf pages result.choice }
    {
        Selection {
            choice: Choice::Auto,
            next_status: 0,
        }
    }

    /// After one moment more: the first of the keys that applies selects. `turn` is the page that ALL shows,
    /// where it shows one.
    pub fn next(self, inputs: &Inputs, turn: Option<usize>) -> Selection
        requires called { CallsItsPages inputs.now }
        requires turn { IfSome turn (λ i. i < inputs.now.pages) }
        requires choice { IsChoiceOf inputs.now.pages self.choice }
        ensures selection { (p : Panel) (k : ℕ) → IsSelection p k self → AreInputs p k inputs.now
            → turn ≡ page_of_all p k → IsSelection p (suc k) result }
        ensures choice { IsChoiceOf inputs.now.pages result.choice }
    {
        match turn.or(inputs.page_called) {
            Some(page) => Selection {
                choice: Choice::Page(page),
                next_status: 0,
            },
            None => self.next_by_keys(inputs),
        }
    }

    // The same in a moment in which no page is selected.
    fn next_by_keys(self, inputs: &Inputs) -> Selection
        ensures selection { (p : Panel) (k : ℕ) → IsSelection p k self → AreInputs p k inputs.now
            → selecting p k ≡ selecting_one p None k → IsSelection p (suc k) result }
        ensures choice { (pages : ℕ) → IsChoiceOf pages self.choice
            → IsChoiceOf pages result.choice }
    {
        if inputs.sts {
            return Selection {
                choice: Choice::Status(self.next_status),
                next_status: self.next_status.saturating_add(1),
            };
        }
        if inputs.clr {
            return Selection::new();
        }
        if inputs.cancels {
            return Selection {
                choice: Choice::Status(0),
                next_status: 1,
            };
        }
        self
    }
}

/// The page that ALL shows in moment `now`, from 0, of so many: the first page in `since`, the first moment of the
/// stretch in which ALL is held, and one further each second. There is none where ALL isn't held, or the book has no
/// page.
pub fn page_in_turn(since: Option<u64>, now: u64, pages: usize) -> Option<usize>
    ensures turn { (p : Panel) → p.pages ≡ pages → since ≡ running_since p.all_held (suc now)
        → result ≡ page_of_all p now }
    ensures within { IfSome result (λ i. i < pages) }
{
    let since = since?;
    if pages == 0 {
        return None;
    }
    Some((now.saturating_sub(since) / TURN % pages as u64) as usize)
}
