//! A worked view of a replay, the smallest one: it counts the Ticks whose picture has a red row. Nothing rests on it.
#![tactic(auto)]

mod red_ticks;

pub use red_ticks::RedTicks;

#[cfg(test)]
mod tests;
