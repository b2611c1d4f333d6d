// What is kept of a node of a condition from one moment to the next.
ghost use Rattle.std.specs.Prelude.{◌≡◌};
ghost use Rattle.term_eval.specs.NodeState.{unasked};

/// What is kept of one node.
#[derive(Clone, Copy, Debug, PartialEq, Eq)]
pub struct NodeState {
    /// How many of the nodes right below it hold.
    pub count: u8,
    /// It holds.
    pub told: bool,
}

// A node before the first moment.
pub(crate) fn unasked() -> NodeState
    ensures { result ≡ unasked }
{
    NodeState {
        count: 0,
        told: false,
    }
}
