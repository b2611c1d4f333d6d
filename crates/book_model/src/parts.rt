// What a book keeps beside its draft: the order of the alerts, their secondaries by place, and where the lines
// of each begin.
ghost use Rattle.std.specs.Prelude.{◌≡◌, ◌<◌, ◌≤◌, ◌+◌, ◌^◌, ◌++◌, map, length, All, OnOk, IfOk};
ghost use Rattle.std.specs.List.{filter_map};
ghost use Rattle.ecam_spec.specs.declared.limits.TheConstants.{ALERTS, LINES};
ghost use Rattle.book_model.specs.View.{name_of, bytes_of};
ghost use Rattle.book_model.specs.NamePlaces.{number_by};
ghost use Rattle.book_model.specs.Parts.{starts, total, line_counts, order_by, level_places, secondaries_by, is_level};

use crate::draft::{Alert, Name};
use crate::names::{NamePlaces, alert_places, place_of};
use ecam_kinds::Level;
use std::alloc::{AllocError, Global};

/// The places of the alerts in the order in which they are shown: level 3, then 2, then 1, and within a level
/// as in the book.
pub fn order_of(alloc: Global, alerts: &[Alert]) -> Result<Vec<u32>, AllocError>
    requires { length alerts.now < 2 ^ 32 }
    ensures { IfOk result (λ v. v.items ≡ order_by alerts.now) }
{
    let mut order = Vec::new(alloc);
    add_level(&mut order, alerts, Level::Three)?;
    add_level(&mut order, alerts, Level::Two)?;
    add_level(&mut order, alerts, Level::One)?;
    Ok(order)
}

// Appends the places of the alerts of one level.
fn add_level(order: &mut Vec<u32>, alerts: &[Alert], level: Level) -> Result<(), AllocError>
    requires { length alerts.now < 2 ^ 32 }
    ensures { OnOk result (order.new.items ≡ order.old.items ++ level_places alerts.now level) }
{
    for (i, alert) in alerts.iter().enumerate() {
        if is_level(alert.level, level) {
            order.push(i as u32)?;
        }
    }
    Ok(())
}

fn is_level(level: Level, wanted: Level) -> bool
    ensures { result ≡ is_level wanted level }
{
    match wanted {
        Level::One => matches!(level, Level::One),
        Level::Two => matches!(level, Level::Two),
        Level::Three => matches!(level, Level::Three),
    }
}

/// The secondaries of each alert by place, in the order in which the alert lists them.
pub fn secondaries_of(alloc: Global, alerts: &[Alert]) -> Result<Vec<Vec<u32>>, AllocError>
    requires { length alerts.now < 2 ^ 32 }
    ensures { IfOk result (λ v. map (λ s. s.items) v.items
        ≡ map (secondaries_by (map name_of alerts.now)) alerts.now) }
{
    let places = alert_places(alloc, alerts)?;
    let mut secondaries = Vec::new(alloc);
    for alert in alerts {
        secondaries.push(places_of(alloc, &places, alert.secondary.as_slice())?)?;
    }
    Ok(secondaries)
}

// The places of those of these names that alerts have.
fn places_of(alloc: Global, places: &NamePlaces<'_>, names: &[Name]) -> Result<Vec<u32>, AllocError>
    ensures { IfOk result (λ v. v.items ≡ filter_map (number_by places.now)
        (map bytes_of names.now)) }
{
    let mut found = Vec::new(alloc);
    for name in names {
        if let Some(place) = place_of(places, name.as_str()) {
            found.push(place)?;
        }
    }
    Ok(found)
}

/// Where the lines of each alert begin in the list of all lines, and how many lines there are.
pub fn line_starts_of(alloc: Global, alerts: &[Alert]) -> Result<(Vec<usize>, usize), AllocError>
    requires count { length alerts.now ≤ ALERTS }
    requires lines { All (λ a. length a.lines.items ≤ LINES) alerts.now }
    ensures starts { IfOk result (λ r. r.0.items ≡ starts 0 (line_counts alerts.now)) }
    ensures total { IfOk result (λ r. r.1 ≡ total (line_counts alerts.now)) }
{
    let mut starts = Vec::new(alloc);
    let mut count = 0usize;
    for alert in alerts {
        starts.push(count)?;
        count += alert.lines.len();
    }
    Ok((starts, count))
}
