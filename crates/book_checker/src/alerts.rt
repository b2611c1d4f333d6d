// What is wrong with an alert of a draft.
ghost use Rattle.std.specs.Prelude.{◌≡◌, ◌∷◌, List, map};
ghost use Rattle.std.specs.List.{list_any};
ghost use Rattle.ecam_spec.specs.Book.{Text};
ghost use Rattle.ecam_spec.specs.BookTerms.{line_terms};
ghost use Rattle.ecam_spec.specs.DraftFaults.{has_atom, one_misreads, may_sound, is_unknown, stands_early, is_at_most};
ghost use Rattle.book_model.specs.NamePlaces.{FindsPlaces};
ghost use Rattle.book_model.specs.View.{bytes_of, line_of, alert_of};
ghost use Rattle.book_checker.specs.Flaws.{has_flaw, is_flawed, kinds_in, Knows};

use crate::atoms::{AtomFlaw, has_atom};
use bitflags::Flags;
use book_model::{Alert, Line, Name, NamePlaces, Param, place_of};
use ecam_kinds::{Level, Sound};
use ecam_spec::limits;

/// All ten flight phases, as the bits of a set.
const ALL_PHASES: u16 = limits::PHASE_SETS - 1;

/// What may be wrong with an alert.
#[derive(Drop)]
pub(crate) enum AlertFlaw<'a, 'n> {
    /// Its condition asks for the alert itself or a later one.
    AsksLaterAlert,
    /// Its condition, or one of its lines', reads a parameter of these as what it isn't.
    MisreadsParameter(&'a [Param]),
    /// Its level doesn't have its sound.
    HasWrongSound,
    /// A secondary is no alert's name.
    HasUnknownSecondary(&'a NamePlaces<'n>),
    /// A secondary doesn't stand later in the book than the alert.
    HasEarlySecondary(&'a NamePlaces<'n>),
    /// It is inhibited in all phases.
    IsAlwaysInhibited,
}

impl AlertFlaw<'_, '_> {
    /// Whether the alert, at this place of the book from 0, has the flaw.
    pub(crate) fn is_in(&self, place: usize, alert: &Alert) -> bool
        ensures { (names : List Text) → Knows names self.now
            → result ≡ has_flaw names self.now place (alert_of alert.now) }
    {
        match self {
            AlertFlaw::AsksLaterAlert => has_atom(&alert.when.cond, &AtomFlaw::AlertFrom(place)),
            AlertFlaw::MisreadsParameter(params) => misreads_parameter(alert, params),
            AlertFlaw::HasWrongSound => !may_sound(alert.level, alert.sound),
            AlertFlaw::HasUnknownSecondary(places) => {
                has_unknown(alert.secondary.as_slice(), places)
            }
            AlertFlaw::HasEarlySecondary(places) => {
                has_early(alert.secondary.as_slice(), place, places)
            }
            AlertFlaw::IsAlwaysInhibited => alert.inhibit.bits() == ALL_PHASES,
        }
    }
}

fn misreads_parameter(alert: &Alert, params: &[Param]) -> bool
    ensures { result ≡ one_misreads (kinds_in params.now)
        ((alert_of alert.now).when ∷ line_terms (alert_of alert.now).lines) }
{
    let flaw = AtomFlaw::Misread(params);
    has_atom(&alert.when.cond, &flaw) || lines_have_atom(alert.lines.as_slice(), &flaw)
}

fn lines_have_atom(lines: &[Line], flaw: &AtomFlaw<'_>) -> bool
    ensures { result ≡ list_any (has_atom (is_flawed flaw.now))
        (line_terms (map line_of lines.now)) }
{
    for line in lines {
        if has_atom(&line.when.cond, flaw) || has_atom(&line.done.cond, flaw) {
            return true;
        }
    }
    false
}

fn may_sound(level: Level, sound: Sound) -> bool
    ensures { result ≡ may_sound level sound }
{
    match level {
        Level::One => matches!(sound, Sound::Quiet),
        Level::Two => matches!(sound, Sound::Quiet | Sound::Chime),
        Level::Three => !matches!(sound, Sound::Quiet | Sound::Chime),
    }
}

fn has_unknown(secondaries: &[Name], places: &NamePlaces<'_>) -> bool
    ensures { (names : List Text) → FindsPlaces names places.now
        → result ≡ list_any (is_unknown names) (map bytes_of secondaries.now) }
{
    secondaries
        .iter()
        .any(|name| place_of(places, name.as_str()).is_none())
}

fn has_early(secondaries: &[Name], primary: usize, places: &NamePlaces<'_>) -> bool
    ensures { (names : List Text) → FindsPlaces names places.now
        → result ≡ list_any (stands_early names primary) (map bytes_of secondaries.now) }
{
    secondaries.iter().any(|name| stands_early(primary, place_of(places, name.as_str())))
}

fn stands_early(primary: usize, secondary: Option<u32>) -> bool
    ensures { result ≡ is_at_most primary secondary }
{
    match secondary {
        Some(place) => place as usize <= primary,
        None => false,
    }
}
