//! What follows for replays, as theorems: each is the contract of a function that does nothing.
ghost use Rattle.std.specs.Prelude.{◌≡◌, ◌≤◌, ℕ, true, List, length};
ghost use Rattle.std.specs.List.{list_all};
ghost use Rattle.ecam_spec.specs.Book.{Text};
ghost use Rattle.replay_core.specs.RecordLines.{is_line, without_failure_lines, record_of};
ghost use Rattle.replay_core.specs.Unaffected.{DropsFailures};

/// A record without the lines on which computers fail and come up has no fault, and says the other events. So it is one of
/// those of which `run` says that their reply is written where one computer stays up.
pub fn a_record_without_its_failure_lines_says_the_rest()
    ensures { (lines : List Text) (limit : ℕ) → list_all is_line lines ≡ true
        → length (record_of lines) ≤ limit
        → DropsFailures (record_of lines) (record_of (without_failure_lines lines)) limit }
{}
