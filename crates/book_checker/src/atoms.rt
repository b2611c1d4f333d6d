// What is wrong with an atom of a condition, and the search for such an atom.
ghost use Rattle.std.specs.Prelude.{◌≡◌, slice_get};
ghost use Rattle.std.specs.List.{list_any};
ghost use Rattle.ecam_spec.specs.BookTerms.{phase_terms};
ghost use Rattle.ecam_spec.specs.DraftFaults.{has_atom, have_atom, asks_phase_or_alert, asks_alert_from, misreads, is_discrete};
ghost use Rattle.term_tree.specs.View.{tree_of, trees_of};
ghost use Rattle.book_model.specs.View.{phase_of};
ghost use Rattle.book_checker.specs.Flaws.{is_flawed, kinds_in};

use book_model::{Kind, Param, PhaseTerms};
use term_tree::Cond;

/// What an atom may not do where it stands.
#[derive(Drop)]
pub(crate) enum AtomFlaw<'a> {
    /// It asks for a flight phase or an alert.
    PhaseOrAlert,
    /// It asks for the alert of this place or a later one.
    AlertFrom(usize),
    /// It tests a number as a discrete, or compares a discrete.
    Misread(&'a [Param]),
}

impl AtomFlaw<'_> {
    fn is_in(&self, atom: &Cond) -> bool
        ensures { result ≡ is_flawed self.now (tree_of atom.now) }
    {
        match self {
            AtomFlaw::PhaseOrAlert => asks_phase_or_alert(atom),
            AtomFlaw::AlertFrom(place) => asks_alert_from(*place, atom),
            AtomFlaw::Misread(params) => misreads(params, atom),
        }
    }
}

fn asks_phase_or_alert(atom: &Cond) -> bool
    ensures { result ≡ asks_phase_or_alert (tree_of atom.now) }
{
    matches!(atom, Cond::InPhase(_) | Cond::Alert(_))
}

fn asks_alert_from(place: usize, atom: &Cond) -> bool
    ensures { result ≡ asks_alert_from place (tree_of atom.now) }
{
    match atom {
        Cond::Alert(asked) => place <= *asked as usize,
        _ => false,
    }
}

fn misreads(params: &[Param], atom: &Cond) -> bool
    ensures { result ≡ misreads (kinds_in params.now) (tree_of atom.now) }
{
    match atom {
        Cond::Disc(param) => !is_discrete(params, *param as usize),
        Cond::Cmp(param, _, _) => is_discrete(params, *param as usize),
        _ => false,
    }
}

fn is_discrete(params: &[Param], place: usize) -> bool
    ensures { result ≡ is_discrete (slice_get (kinds_in params.now) place) }
{
    match params.get(place) {
        Some(param) => matches!(param.kind, Kind::Disc),
        None => false,
    }
}

/// Whether an atom of the condition has the flaw. It recurses as deep as the condition is, in a sound draft 16 at most.
#[cycle(walk)]
#[tactic(auto, unfolding(ecam_spec::specs::DraftFaults::has_atom))]
pub(crate) fn has_atom(cond: &Cond, flaw: &AtomFlaw<'_>) -> bool
    ensures { result ≡ has_atom (is_flawed flaw.now) (tree_of cond.now) }
{
    match cond {
        Cond::Const(_)
        | Cond::Disc(_)
        | Cond::Valid(_)
        | Cond::Cmp(_, _, _)
        | Cond::InPhase(_)
        | Cond::Alert(_)
        | Cond::Press(_)
        | Cond::Fwc(_) => flaw.is_in(cond),
        Cond::Not(of) | Cond::Conf(of, _) | Cond::Hold(of, _) | Cond::Rise(of) => has_atom(
            of, flaw,
        ),
        Cond::All(members) | Cond::Any(members) | Cond::AtLeast(_, members) => {
            have_atom(members, flaw)
        }
        Cond::Latch(set, reset) => has_atom(set, flaw) || has_atom(reset, flaw),
    }
}

#[cycle(walk)]
fn have_atom(members: &[Cond], flaw: &AtomFlaw<'_>) -> bool
    ensures { result ≡ have_atom (is_flawed flaw.now) (trees_of members.now) }
{
    for member in members {
        if has_atom(member, flaw) {
            return true;
        }
    }
    false
}

/// Whether an atom of the phase inputs has the flaw.
pub(crate) fn phase_has_atom(phase: &PhaseTerms, flaw: &AtomFlaw<'_>) -> bool
    ensures { result ≡ list_any (has_atom (is_flawed flaw.now)) (phase_terms (phase_of phase.now)) }
{
    has_atom(&phase.gnd.cond, flaw)
        || has_atom(&phase.run.cond, flaw)
        || has_atom(&phase.tp.cond, flaw)
        || has_atom(&phase.fast.cond, flaw)
        || has_atom(&phase.high.cond, flaw)
        || has_atom(&phase.low.cond, flaw)
}
