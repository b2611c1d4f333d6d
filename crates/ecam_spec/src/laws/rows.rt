// What is so of each row of a picture.

ghost use Rattle.std.specs.Prelude.{List, All};
ghost use Rattle.ecam_spec.specs.declared.kinds.Event.{Event};
ghost use Rattle.ecam_spec.specs.Draft.{Draft, book_of};
ghost use Rattle.ecam_spec.specs.KeepsLimits.{IsSound};
ghost use Rattle.ecam_spec.specs.ProperRows.{IsProper};
ghost use Rattle.ecam_spec.specs.Replay.{picture_at, last_picture};

/// In each picture a row's text is empty exactly where its colour is Blank.
pub fn a_row_is_empty_exactly_where_it_is_blank()
    ensures at { (d : Draft) → IsSound d → (h : List Event)
        → All IsProper (picture_at (book_of d) h) }
    ensures last { (d : Draft) → IsSound d → (h : List Event)
        → All IsProper (last_picture (book_of d) h) }
{}
