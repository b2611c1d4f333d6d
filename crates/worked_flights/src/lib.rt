//! Worked records of flights, reported by a pair of computers in memory. Nothing rests on it; it has tests alone, whose
//! expected lines come from the rules by hand.
#![tactic(auto)]

#[cfg(test)]
mod flights;
