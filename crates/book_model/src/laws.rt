// What the definitions of a sealed book come to: theorems, each the contract of a function that does nothing.
ghost use Rattle.std.specs.Prelude.{◌≡◌, ℕ, ◌+◌, ◌*◌, length, take, slice_get, Some, All, AllPairs};
ghost use Rattle.ecam_spec.specs.Book as plain;
ghost use Rattle.ecam_spec.specs.BookTerms.{terms_of, slots_in, lines_of};
ghost use Rattle.ecam_spec.specs.TermSize.{Placed, EndsBefore, LiesIn};
ghost use Rattle.ecam_spec.specs.TermNames.{IsWithin};
ghost use Rattle.ecam_spec.specs.Term.{holds};
ghost use Rattle.ecam_spec.specs.Alert.{present};
ghost use Rattle.ecam_spec.specs.History.{Moment};
ghost use Rattle.ecam_spec.specs.Situation.{alert_at, flight_world, world, present_in};
ghost use Rattle.book_model.specs.declared.draft.Draft.{Draft};
ghost use Rattle.book_model.specs.declared.draft.Alert.{Alert};
ghost use Rattle.book_model.specs.declared.draft.Line.{Line};
ghost use Rattle.book_model.specs.declared.draft.Memo.{Memo};
ghost use Rattle.book_model.specs.View.{tree_in, placed_of};
ghost use Rattle.book_model.specs.Sealed.{IsSealed, the_book};
ghost use Rattle.book_model.specs.Slots.{phase_trees, phase_places, draft_places};
ghost use Rattle.book_model.specs.Conditions.{places, alerts_from, lines_from, memos_from};

/// The slots of a book's conditions are ranges from 0 up to the number of slots, and no two of them overlap:
/// they come in the order in which a moment steps the conditions.
pub fn conditions_have_slots_of_their_own()
    ensures within { (d : Draft) → IsSealed d
        → All (LiesIn 0 (slots_in (terms_of (the_book d)))) (draft_places d) }
    ensures disjoint { (d : Draft) → IsSealed d → AllPairs EndsBefore (draft_places d) }
{}

/// Each condition of a book has a number among all, and so its place among the slots: the six inputs of the phase
/// come first, then the alerts' own, then two for each line, and the memos' last.
pub fn each_condition_has_its_number()
    ensures inputs { (d : Draft) → IsSealed d → (j : ℕ) (p : Placed)
        → slice_get (phase_places d.phase) j ≡ Some p
        → slice_get (places (the_book d)) j ≡ Some p }
    ensures alerts { (d : Draft) → IsSealed d → (a : ℕ) (x : Alert)
        → slice_get d.alerts.items a ≡ Some x
        → slice_get (places (the_book d)) (alerts_from + a) ≡ Some (placed_of x.when) }
    ensures lines { (d : Draft) → IsSealed d → (a j : ℕ) (x : Alert) (l : Line)
        → slice_get d.alerts.items a ≡ Some x → slice_get x.lines.items j ≡ Some l
        → let line : ℕ = length (lines_of (take a (the_book d).alerts)) + j in
        let first : ℕ = lines_from (the_book d) + 2 * line in
        (slice_get (places (the_book d)) first ≡ Some (placed_of l.when))
        × (slice_get (places (the_book d)) (first + 1) ≡ Some (placed_of l.done)) }
    ensures memos { (d : Draft) → IsSealed d → (j : ℕ) (x : Memo)
        → slice_get d.memos.items j ≡ Some x
        → slice_get (places (the_book d)) (memos_from (the_book d) + j) ≡ Some (placed_of x.when) }
    ensures count { (d : Draft) → IsSealed d
        → length (places (the_book d)) ≡ memos_from (the_book d) + length (the_book d).memos }
{}

/// A condition names parameters that are there, and alerts that are known where a moment steps it: an input of the
/// phase names none, and an alert's own condition only those before it.
pub fn conditions_name_what_is_known()
    ensures inputs { (d : Draft) → IsSealed d → (j : ℕ) (c : plain.Tree)
        → slice_get (phase_trees d.phase) j ≡ Some c
        → IsWithin (length d.params.items) 0 c }
    ensures alerts { (d : Draft) → IsSealed d → (a : ℕ) (x : Alert)
        → slice_get d.alerts.items a ≡ Some x
        → IsWithin (length d.params.items) a (tree_in x.when) }
    ensures memos { (d : Draft) → IsSealed d → (j : ℕ) (x : Memo)
        → slice_get d.memos.items j ≡ Some x
        → IsWithin (length d.params.items) (length d.alerts.items) (tree_in x.when) }
{}

/// All conditions of a book are as true as in the world of all alerts: so are the inputs of the phase, and each
/// alert is present by its condition in it.
pub fn one_world_serves_a_book()
    ensures inputs { (d : Draft) → IsSealed d → (j : ℕ) (c : plain.Tree)
        → slice_get (phase_trees d.phase) j ≡ Some c
        → (moments : ℕ → Moment) (k : ℕ)
        → holds (flight_world (the_book d) moments) c k ≡ holds (world (the_book d) moments) c k }
    ensures alerts { (d : Draft) → IsSealed d → (a : ℕ) (x : Alert)
        → slice_get d.alerts.items a ≡ Some x
        → (moments : ℕ → Moment) (k : ℕ)
        → present_in (the_book d) moments a k
        ≡ present x.confirm (holds (world (the_book d) moments) (tree_in x.when)) k }
{}
