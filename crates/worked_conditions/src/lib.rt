//! Worked texts of conditions: what each is read as, or refused for, and how it is written again. Nothing rests on it; it
//! has tests alone, whose verdicts come from the grammar by hand.
#![tactic(auto)]

#[cfg(test)]
mod named;
#[cfg(test)]
mod reading;
#[cfg(test)]
mod writing;
