// The tests of SIZE: whether a length that is lent breaks the bounds or the equal lengths.
#![tactic(auto)]

ghost use Rattle.std.specs.Prelude.{◌≤◌, ◌≡◌};
ghost use Rattle.model.specs.Bounds.{most_nodes, most_transistors, cells_for};
ghost use Rattle.model.specs.Places.{any};
ghost use Rattle.model.specs.Lent.{lent, asked};
ghost use Rattle.model.specs.Rules.{node_sizes, wire_sizes, change_sizes, check_sizes, reset_sizes, step_sizes, run_sizes};

use model::{ChangeList, MOST_CHANGES, MOST_NODES, MOST_TRANSISTORS, Network};

// The work cells that a network of so many nodes and transistors needs.
pub fn cells_for(nodes: usize, transistors: usize) -> usize
    requires { (nodes ≤ most_nodes) × (transistors ≤ most_transistors) }
    ensures { result ≡ cells_for nodes transistors }
{
    4 * nodes + 2 * transistors
}

fn wrong_node_sizes(kinds: &[u8]) -> bool
    ensures { result ≡ any (node_sizes kinds.now) }
{
    kinds.is_empty() || kinds.len() > MOST_NODES
}

// Of the network it reads the transistors alone.
fn wrong_wire_sizes(net: &Network) -> bool
    ensures { result ≡ any (wire_sizes (lent net.now)) }
{
    let transistors = net.types.len();
    transistors > MOST_TRANSISTORS
        || net.gates.len() != transistors
        || net.sources.len() != transistors
        || net.drains.len() != transistors
}

fn wrong_change_sizes(changes: &ChangeList) -> bool
    ensures { result ≡ any (change_sizes (asked changes.now)) }
{
    let entries = changes.nodes.len();
    changes.states.len() != entries || entries > MOST_CHANGES
}

#[tactic(auto, unfolding(model::specs::Rules::check_sizes))]
pub fn wrong_check_sizes(net: &Network) -> bool
    ensures { result ≡ any (check_sizes (lent net.now)) }
{
    wrong_node_sizes(net.kinds) || wrong_wire_sizes(net)
}

#[tactic(auto, unfolding(model::specs::Rules::reset_sizes))]
pub fn wrong_reset_sizes(kinds: &[u8], states: &[u8]) -> bool
    ensures { result ≡ any (reset_sizes kinds.now states.now) }
{
    wrong_node_sizes(kinds) || states.len() != kinds.len()
}

#[tactic(auto, unfolding(model::specs::Rules::step_sizes, model::specs::Rules::reset_sizes))]
pub fn wrong_step_sizes(net: &Network, states: &[u8], work: &[u16]) -> bool
    ensures { result ≡ any (step_sizes (lent net.now) states.now work.now) }
{
    wrong_reset_sizes(net.kinds, states)
        || wrong_wire_sizes(net)
        || work.len() < cells_for(net.kinds.len(), net.types.len())
}

#[tactic(auto, unfolding(model::specs::Rules::run_sizes, model::specs::Rules::step_sizes))]
pub fn wrong_run_sizes(net: &Network, states: &[u8], changes: &ChangeList, work: &[u16]) -> bool
    ensures { result ≡ any (run_sizes (lent net.now) states.now (asked changes.now) work.now) }
{
    wrong_step_sizes(net, states, work) || wrong_change_sizes(changes)
}
