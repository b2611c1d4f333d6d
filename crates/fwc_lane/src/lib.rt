//! The running state of one flight warning computer: what the words, the keys and the moments so far leave for the next
//! moment, and the picture of the last one. A Tick reads those values that may be others, of the parameters that a condition
//! names or a page shows (the first Tick reads all), finds the conditions that the moment wakes, and steps, in this order,
//! the six inputs of the flight phase, the phase, the alerts, the procedure lines, the memos, the crew's marks, the lights
//! with the sound, and the selection; then it mends the rows of the picture that changed. Of conditions it counts those
//! that are woken: all in the first moment, then those that are due, and those that name what moved; and of these it steps
//! those that may turn by that. A moment that follows one which left all at rest ends without any of this where no value
//! that is asked for may be another, no condition is due, the crew does nothing and the phase stays.
#![tactic(auto)]

mod alert_turn;
mod alerts;
mod begin;
mod blank;
mod conditions;
mod counts;
mod crew;
mod display;
mod drawing;
mod first_alerts;
mod flags;
mod flight;
mod lane;
mod line_alerts;
mod memos;
mod next;
mod numbers;
mod procedures;
mod rest;
mod scene;
mod shown_lines;
mod step;
mod strokes;
mod terms;
mod values;
mod waking;
mod zones;

pub use lane::Lane;
pub use strokes::Strokes;
