// Gives each condition of a draft its place among the slots, in the order in which a moment steps them.
ghost use Rattle.std.specs.Prelude.{◌≡◌, ◌<◌, ◌+◌, ◌^◌, map};
ghost use Rattle.std.specs.List.{flat_map};
ghost use Rattle.ecam_spec.specs.BookTerms.{slots_in};
ghost use Rattle.ecam_spec.specs.TermSize.{slots, trees, placed};
ghost use Rattle.book_model.specs.View.{draft_of, tree_in, line_of, alert_of, memo_of, phase_of};
ghost use Rattle.book_model.specs.Slots.{line_trees, line_places, lines_trees, lines_places, when_tree, when_place, memo_tree, memo_place, phase_trees, phase_places, draft_trees, draft_places};

use crate::draft::{Alert, Draft, Line, Memo, PhaseTerms, Term};

/// Sets each condition's `at`, from 0, so that their slots follow one another, and answers how many slots they
/// have together.
pub fn place(draft: &mut Draft) -> usize
    requires { slots_in (draft_trees draft.old) < 2 ^ 64 }
    ensures same { draft_of draft.new ≡ draft_of draft.old }
    ensures placed { draft_places draft.new ≡ placed 0 (trees (draft_trees draft.old)) }
    ensures next { result ≡ slots_in (draft_trees draft.old) }
{
    let alerts_at = place_phase(&mut draft.phase, 0);
    let lines_at = place_alerts(&mut draft.alerts, alerts_at);
    let memos_at = place_procedures(&mut draft.alerts, lines_at);
    place_memos(&mut draft.memos, memos_at)
}

// Each function places the conditions of its argument from `at` on, and answers where the next ones begin.
fn place_term(term: &mut Term, at: usize) -> usize
    requires { at + slots (tree_in term.old) < 2 ^ 64 }
    ensures cond { term.new.cond ≡ term.old.cond }
    ensures at { term.new.at ≡ at }
    ensures next { result ≡ at + slots (tree_in term.old) }
{
    term.at = at;
    at + term.cond.slots()
}

#[tactic(auto, unfolding(ecam_spec::specs::TermSize::placed))]
fn place_phase(phase: &mut PhaseTerms, at: usize) -> usize
    requires { at + slots_in (phase_trees phase.old) < 2 ^ 64 }
    ensures same { phase_of phase.new ≡ phase_of phase.old }
    ensures placed { phase_places phase.new ≡ placed at (trees (phase_trees phase.old)) }
    ensures next { result ≡ at + slots_in (phase_trees phase.old) }
{
    let at = place_term(&mut phase.gnd, at);
    let at = place_term(&mut phase.run, at);
    let at = place_term(&mut phase.tp, at);
    let at = place_term(&mut phase.fast, at);
    let at = place_term(&mut phase.high, at);
    place_term(&mut phase.low, at)
}

fn place_alerts(alerts: &mut Vec<Alert>, at: usize) -> usize
    requires { at + slots_in (map when_tree alerts.old.items) < 2 ^ 64 }
    ensures same { map alert_of alerts.new.items ≡ map alert_of alerts.old.items }
    ensures lines { map (λ a. a.lines) alerts.new.items ≡ map (λ a. a.lines) alerts.old.items }
    ensures placed { map when_place alerts.new.items
        ≡ placed at (trees (map when_tree alerts.old.items)) }
    ensures next { result ≡ at + slots_in (map when_tree alerts.old.items) }
{
    let mut next = at;
    for alert in alerts.iter_mut() {
        next = place_term(&mut alert.when, next);
    }
    next
}

fn place_procedures(alerts: &mut Vec<Alert>, at: usize) -> usize
    requires { at + slots_in (flat_map lines_trees alerts.old.items) < 2 ^ 64 }
    ensures same { map alert_of alerts.new.items ≡ map alert_of alerts.old.items }
    ensures whens { map when_place alerts.new.items ≡ map when_place alerts.old.items }
    ensures placed { flat_map lines_places alerts.new.items
        ≡ placed at (trees (flat_map lines_trees alerts.old.items)) }
    ensures next { result ≡ at + slots_in (flat_map lines_trees alerts.old.items) }
{
    let mut next = at;
    for alert in alerts.iter_mut() {
        next = place_lines(&mut alert.lines, next);
    }
    next
}

fn place_lines(lines: &mut Vec<Line>, at: usize) -> usize
    requires { at + slots_in (flat_map line_trees lines.old.items) < 2 ^ 64 }
    ensures same { map line_of lines.new.items ≡ map line_of lines.old.items }
    ensures placed { flat_map line_places lines.new.items
        ≡ placed at (trees (flat_map line_trees lines.old.items)) }
    ensures next { result ≡ at + slots_in (flat_map line_trees lines.old.items) }
{
    let mut next = at;
    for line in lines.iter_mut() {
        next = place_line(line, next);
    }
    next
}

#[tactic(auto, unfolding(ecam_spec::specs::TermSize::placed))]
fn place_line(line: &mut Line, at: usize) -> usize
    requires { at + slots_in (line_trees line.old) < 2 ^ 64 }
    ensures same { line_of line.new ≡ line_of line.old }
    ensures placed { line_places line.new ≡ placed at (trees (line_trees line.old)) }
    ensures next { result ≡ at + slots_in (line_trees line.old) }
{
    let done_at = place_term(&mut line.when, at);
    place_term(&mut line.done, done_at)
}

fn place_memos(memos: &mut Vec<Memo>, at: usize) -> usize
    requires { at + slots_in (map memo_tree memos.old.items) < 2 ^ 64 }
    ensures same { map memo_of memos.new.items ≡ map memo_of memos.old.items }
    ensures placed { map memo_place memos.new.items
        ≡ placed at (trees (map memo_tree memos.old.items)) }
    ensures next { result ≡ at + slots_in (map memo_tree memos.old.items) }
{
    let mut next = at;
    for memo in memos.iter_mut() {
        next = place_term(&mut memo.when, next);
    }
    next
}
