// What an operand reads, by which the atoms that ask for it are told.
ghost use Rattle.std.specs.Prelude.{◌≡◌, is_some};
ghost use Rattle.ecam_spec.specs.Term.{in_set, is_so, stands};
ghost use Rattle.term_eval.specs.Reading.{IsReading, atom_says, test_of, value_read, phase_read, set_read};

use crate::code::Node;
use crate::env::stands;
use ecam_kinds::{Phase, PhaseSet};
use term_tree::Op;

/// What an operand reads in a moment.
#[derive(Clone, Copy, Debug, PartialEq, Eq)]
pub enum Reading {
    /// A parameter's value, if it has one.
    Value(Option<i64>),
    /// The flight phase.
    InPhase(Phase),
    /// Whether an alert is active, a key is pressed, or a computer is up.
    Flag(bool),
}

/// How an atom goes by what its operand reads, as far as a byte tells it.
#[derive(Clone, Copy, Debug, PartialEq, Eq)]
pub enum Test {
    /// It asks whether a parameter's value is 1, an alert is active, a key is pressed, or a computer is up.
    IsSet,
    /// It asks whether a parameter has a value.
    HasValue,
    /// It goes by numbers that its node has.
    OfNode,
}

/// The test that an atom makes.
pub fn test_of(node: &Node) -> Test
    ensures { result ≡ test_of node.now }
{
    match node {
        Node::Disc(_) | Node::Alert(_) | Node::Press(_) | Node::Fwc(_) => Test::IsSet,
        Node::Valid(_) => Test::HasValue,
        _ => Test::OfNode,
    }
}

/// What an atom says whose operand reads so, and which makes this test. The node is looked at only where the test goes by its
/// numbers.
#[inline(always)]
pub fn says(test: Test, node: &Node, reading: Reading) -> bool
    requires test { test ≡ test_of node.now }
    requires reading { IsReading reading }
    ensures { result ≡ atom_says node.now reading }
{
    match test {
        Test::IsSet => is_set(reading),
        Test::HasValue => has_value(reading),
        Test::OfNode => atom_says(node, reading),
    }
}

// What an atom says whose operand reads so.
#[inline(always)]
fn atom_says(node: &Node, reading: Reading) -> bool
    requires { IsReading reading }
    ensures { result ≡ atom_says node.now reading }
{
    match node {
        Node::Disc(_) | Node::Alert(_) | Node::Press(_) | Node::Fwc(_) => is_set(reading),
        Node::Valid(_) => has_value(reading),
        Node::Cmp(_, op, number) => compares(reading, *op, *number),
        Node::InPhase(phases) => is_in(reading, *phases),
        _ => false,
    }
}

#[inline(always)]
fn has_value(reading: Reading) -> bool
    ensures { result ≡ value_read reading is_some }
{
    match reading {
        Reading::Value(value) => value.is_some(),
        _ => false,
    }
}

#[inline(always)]
fn compares(reading: Reading, op: Op, number: i64) -> bool
    ensures { result ≡ value_read reading (is_so (λ value. stands op value number)) }
{
    match reading {
        Reading::Value(Some(value)) => stands(op, value, number),
        _ => false,
    }
}

#[inline(always)]
fn is_in(reading: Reading, phases: PhaseSet) -> bool
    requires { IsReading reading }
    ensures { result ≡ phase_read reading (in_set phases.0) }
{
    match reading {
        Reading::InPhase(phase) => phases.has(phase),
        _ => false,
    }
}

#[inline(always)]
fn is_set(reading: Reading) -> bool
    ensures { result ≡ set_read reading }
{
    match reading {
        Reading::Value(value) => value == Some(1),
        Reading::Flag(flag) => flag,
        _ => false,
    }
}
