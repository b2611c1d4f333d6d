//! Worked books and records, replayed in memory by a pair of computers and by the whole program, with and without failing
//! calls. Nothing rests on it; it has tests alone, whose expected lines come from the rules by hand.
#![tactic(auto)]

#[cfg(test)]
mod advised;
#[cfg(test)]
mod books;
#[cfg(test)]
mod checks;
#[cfg(test)]
mod each_failure;
#[cfg(test)]
mod failures;
#[cfg(test)]
mod faults;
#[cfg(test)]
mod items;
#[cfg(test)]
mod limits;
#[cfg(test)]
mod migrated;
#[cfg(test)]
mod named;
#[cfg(test)]
mod outside;
#[cfg(test)]
mod pairs;
#[cfg(test)]
mod records;
#[cfg(test)]
mod replays;
#[cfg(test)]
mod rows;
#[cfg(test)]
mod shown;
#[cfg(test)]
mod writes;
