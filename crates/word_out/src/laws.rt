//! What holds of the words that are written, as theorems: each is the contract of a function that does nothing.
ghost use Rattle.std.specs.Prelude.{◌≡◌, ℕ, ◌<◌, ◌≤◌, ◌++◌, List, length, None};
ghost use Rattle.ecam_spec.specs.declared.kinds.Event.{Event};
ghost use Rattle.ecam_spec.specs.declared.limits.TheConstants.{ALERTS};
ghost use Rattle.ecam_spec.specs.Book.{Book, Source, Parameter};
ghost use Rattle.ecam_spec.specs.Command.{no_limit};
ghost use Rattle.ecam_spec.specs.History.{era};
ghost use Rattle.ecam_spec.specs.Record.{fault, events};
ghost use Rattle.ecam_spec.specs.Replay.{tick_count, moment_of};
ghost use Rattle.ecam_spec.specs.Situation.{words_in};
ghost use Rattle.ecam_spec.specs.Value.{value};
ghost use Rattle.view_spec.specs.OutputWords.{words_text, words_end};
ghost use Rattle.word_out.specs.ReadBack.{ReadsAlert, alert_value};

/// What is written of a history, with its end, is a record without a fault, if it is no longer than a record may be. It has
/// a moment for each Tick. A discrete that reads an alert's bit, and whose words stay fresh for ten seconds at least, is 1
/// or 0 in each of them as the alert is shown at that Tick, and has no value where no computer is up.
pub fn the_words_are_a_record_that_tells_the_alerts()
    ensures sound { (b : Book) (h : List Event) → length b.alerts ≤ ALERTS
        → length (words_text b h ++ words_end) ≤ no_limit
        → fault (words_text b h ++ words_end) no_limit ≡ None }
    ensures moments { (b : Book) (h : List Event) → length b.alerts ≤ ALERTS
        → length (words_text b h ++ words_end) ≤ no_limit
        → length (era (events (words_text b h ++ words_end) no_limit)).moments ≡ tick_count h }
    ensures values { (b : Book) (h : List Event) → length b.alerts ≤ ALERTS
        → length (words_text b h ++ words_end) ≤ no_limit
        → (t a : ℕ) (p : Parameter) (s : Source)
        → t < tick_count h → a < length b.alerts → ReadsAlert a p s
        → value p (words_in b (moment_of (era (events (words_text b h ++ words_end) no_limit)))) t
        ≡ alert_value b h t a }
{}
