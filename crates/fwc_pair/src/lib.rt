//! The two flight warning computers: their failures and starts, the picture that they show, and where each alert
//! stands. Losing one of them changes nothing, and losing both begins the history anew.
#![tactic(auto)]

mod computer;
mod face;
pub mod laws;
mod pair;
mod standing;
mod title;
mod view;

pub use fwc_lane::Lane;
pub use pair::Pair;
pub use standing::Standing;
pub use view::View;
