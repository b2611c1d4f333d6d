//! What holds of each made record, as theorems: each is the contract of a function that does nothing.
ghost use Rattle.std.specs.Prelude.{◌≡◌, ◌≤◌, ◌+◌, ◌*◌, ℕ, length, None};
ghost use Rattle.ecam_spec.specs.Command.{no_limit};
ghost use Rattle.ecam_spec.specs.Record.{fault, events};
ghost use Rattle.ecam_spec.specs.Replay.{tick_count};
ghost use Rattle.record_maker.specs.Record.{made};

/// The record of each seed is whole: each line has a record's form, and the last one ends it. It has as many Ticks as
/// moments, and it is no longer than 40 bytes a moment and 2 more.
#[tactic(auto, using(crate::proofs::Whole::made_sound, crate::proofs::Whole::made_ticks, crate::proofs::Whole::made_short))]
pub fn a_made_record_has_no_fault()
    ensures fault { (seed count : ℕ) → count ≤ 1000000 → fault (made seed count) no_limit ≡ None }
    ensures ticks { (seed count : ℕ) → count ≤ 1000000
        → tick_count (events (made seed count) no_limit) ≡ count }
    ensures size { (seed count : ℕ) → length (made seed count) ≤ 40 * count + 2 }
{}
