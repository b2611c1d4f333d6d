//! A worked count of what the computers visit, as a theorem: a book, a record, and how many nodes of conditions each of its
//! Ticks has a computer visit that is up. It is proved by computing the definitions, and nothing rests on it.
#![tactic(auto)]

ghost use Rattle.std.specs.Prelude.{◌≡◌, codes};
ghost use Rattle.worked_rows.specs.Books.{book_when, low_for_two};
ghost use Rattle.worked_visits.specs.Counts.{visits_behind, visits_of};

/// An alert of `conf(g_lo, 2)`, whose discrete comes in the first of three moments and stays. The six conditions of the
/// phase have a node each, and the alert's has two. The first moment wakes all, the second none, and in the third the
/// alert's alone turns.
pub fn three_ticks_visit_eight_nodes_none_and_two()
    ensures first { visits_behind (book_when low_for_two) (codes "W 0 0000041d/") ≡ 8 }
    ensures second { visits_behind (book_when low_for_two) (codes "W 0 0000041d/T/") ≡ 0 }
    ensures third { visits_behind (book_when low_for_two) (codes "W 0 0000041d/T/T/") ≡ 2 }
    ensures total { visits_of (book_when low_for_two) (codes "W 0 0000041d/T/T/T/E/") ≡ 10 }
{}
