// Names and their places: a map from the names of a book's items to their places, and that of its alerts.
ghost use Rattle.std.specs.Prelude.{◌≡◌, ◌<◌, ◌^◌, length, map, IfOk, OnOk};
ghost use Rattle.book_model.specs.View.{name_of};
ghost use Rattle.book_model.specs.NamePlaces.{FindsPlaces, NotesPlace, number_by};

use crate::draft::Alert;
use std::alloc::{AllocError, Global};
use std::collections::HashMap;

/// Places of names, from 0.
pub type NamePlaces<'a> = HashMap<&'a [u8], u32>;

/// The places of these alerts by name, from 0. Of two equal names the first counts.
pub fn alert_places<'a>(alloc: Global, alerts: &'a [Alert]) -> Result<NamePlaces<'a>, AllocError>
    requires { length alerts.now < 2 ^ 32 }
    ensures { IfOk result (FindsPlaces (map name_of alerts.now)) }
{
    let mut places = HashMap::new(alloc);
    for (i, alert) in alerts.iter().enumerate() {
        note_place(&mut places, alert.name.as_str().as_bytes(), i as u32)?;
    }
    Ok(places)
}

/// Notes the place of a name, unless one is noted. It costs a hash of the name, and as a rule a comparison. An error is
/// want of memory.
pub fn note_place<'a>(
    places: &mut NamePlaces<'a>,
    name: &'a [u8],
    place: u32,
) -> Result<(), AllocError>
    ensures { OnOk result (NotesPlace places.old places.new name.now place) }
{
    if !places.contains_key(name) {
        places.insert(name, place)?;
    }
    Ok(())
}

/// The place that is noted of a name, if one is.
pub fn place_in(places: &NamePlaces<'_>, name: &[u8]) -> Option<u32>
    ensures { result ≡ number_by places.now name.now }
{
    places.get(name).copied()
}

/// The same of a name as a text.
pub fn place_of(places: &NamePlaces<'_>, name: &str) -> Option<u32>
    ensures { result ≡ number_by places.now name.now }
{
    place_in(places, name.as_bytes())
}
