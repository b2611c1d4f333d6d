//! Conditions in past-time logic, moment by moment, over a bounded memory: one cell for each temporal node. A condition is
//! stepped by its tree, or by its code, which is its nodes in one list: that costs less.
#![tactic(auto)]

mod begin;
mod cells;
mod climb;
mod code;
mod env;
mod laws;
mod leaf;
mod link;
mod memory;
mod nodes;
mod owner;
mod reading;
mod run;
mod slot;
mod turn;
mod walk;

pub use cells::Cells;
pub use code::{Node, Step, add_code};
pub use env::Env;
pub use laws::{
    a_condition_at_rest_keeps_its_truth, a_condition_that_is_not_stirred_stands,
    code_asks_for_what_the_condition_asks_for, nodes_wait_by_their_own_states,
    nodes_wait_by_whom_was_asked, operands_and_the_due_moment_wake, what_is_named_decides,
};
pub use link::{Gate, Link, add_links, link_at};
pub use nodes::NodeState;
pub use owner::{Owner, Timing, add_owners};
pub use reading::{Reading, Test, says, test_of};
pub use turn::Turn;

#[cfg(test)]
mod tests;
