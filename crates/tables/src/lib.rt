// The first bad place of each table that is lent, if there is one.
#![tactic(auto)]

ghost use Rattle.std.specs.Prelude.{◌<◌, ◌≡◌, length, eqb, ltb};
ghost use Rattle.model.specs.Places.{some, any, at};
ghost use Rattle.model.specs.Net.{alone};
ghost use Rattle.model.specs.Lent.{lent, asked};
ghost use Rattle.model.specs.Rules.{wire_tests, change_tests};
ghost use Rattle.basis.specs.Sound.{Level};
ghost use Rattle.tables.specs.Place.{place_of};

use model::{ChangeList, HIGHEST_STATE, HIGHEST_TYPE, Network, is_input};

// The first byte above m.
pub fn first_above(s: &[u8], m: u8) -> Option<usize>
    ensures { result ≡ place_of (length s.now) (λ v. ltb m (at s.now v)) }
{
    s.iter().position(|v| *v > m)
}

// Whether the transistor t is of no known type, or names no node.
#[tactic(auto, unfolding(model::specs::Rules::wire_tests))]
fn wrong_wire(net: &Network, t: usize) -> bool
    requires { (t < length net.now.types.now) × Level (lent net.now) }
    ensures { result ≡ any (wire_tests (lent net.now) t) }
{
    let nodes = net.kinds.len();
    net.types[t] > HIGHEST_TYPE
        || usize::from(net.gates[t]) >= nodes
        || usize::from(net.sources[t]) >= nodes
        || usize::from(net.drains[t]) >= nodes
}

// The first such transistor.
pub fn first_wrong_wire(net: &Network) -> Option<usize>
    requires { Level (lent net.now) }
    ensures { let net = lent net.now in result ≡ place_of (length net.types) (λ t. any (wire_tests net t)) }
{
    // A copy, so that where the tables begin is read once, and not for every transistor.
    let net = *net;
    (0..net.types.len()).find(|t| wrong_wire(&net, *t))
}

// Whether an entry before e names the same node.
#[tactic(auto, using(crate::proofs::Searching::any_front))]
fn named_before(named: &[u16], e: usize) -> bool
    requires { e < length named.now }
    ensures { result ≡ some e (λ k. eqb (at named.now k) (at named.now e)) }
{
    named[..e].contains(&named[e])
}

// Whether the entry e of the change list names no node, a node that is no input, no state, or a node named earlier. Of the network it
// reads the kinds alone.
#[tactic(auto, unfolding(model::specs::Rules::change_tests))]
fn wrong_change(kinds: &[u8], changes: &ChangeList, e: usize) -> bool
    requires { (e < length changes.now.nodes.now) × (length changes.now.states.now ≡ length changes.now.nodes.now) }
    ensures { result ≡ any (change_tests (alone kinds.now) (asked changes.now) e) }
{
    let node = usize::from(changes.nodes[e]);
    node >= kinds.len()
        || !is_input(kinds[node])
        || changes.states[e] > HIGHEST_STATE
        || named_before(changes.nodes, e)
}

// The first such entry.
pub fn first_wrong_change(kinds: &[u8], changes: &ChangeList) -> Option<usize>
    requires { length changes.now.states.now ≡ length changes.now.nodes.now }
    ensures { let changes = asked changes.now in
        result ≡ place_of (length changes.places) (λ e. any (change_tests (alone kinds.now) changes e)) }
{
    (0..changes.nodes.len()).find(|e| wrong_change(kinds, changes, *e))
}
