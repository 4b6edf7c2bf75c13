// Networks for the programs: the bench set, and networks larger than any that is taken, whose fronts are lent.
#![tactic(auto)]

ghost use Rattle.std.specs.Prelude.{◌≡◌, ◌≤◌, ◌∷◌, length, take, replicate};
ghost use Rattle.model.specs.Net.{net_of};
ghost use Rattle.model.specs.Lent.{lent};
ghost use Rattle.bench.specs.Turn.{InTurn};

use model::{GROUND, MOST_NODES, Network, POWER, PULLUP};

// Kinds of nodes: plain, with a pullup, input, ground, power. They and the types are the bytes of a lent table, as the C interface has them.
pub const N: u8 = 0;

pub const P: u8 = PULLUP;

pub const I: u8 = 2;

pub const G: u8 = GROUND;

pub const V: u8 = POWER;

// Types of transistors that the set has: n and d.
pub const TN: u8 = 0;

pub const TD: u8 = 2;

// 0 I, 1 I, 2 P; n(1; 0, 2).
pub const INV: Network<'static> = Network {
    kinds: &[I, I, P],
    types: &[TN],
    gates: &[1],
    sources: &[0],
    drains: &[2],
};

// 0 I, 1 N, 2 N; n(0; 1, 2).
pub const PASS: Network<'static> = Network {
    kinds: &[I, N, N],
    types: &[TN],
    gates: &[0],
    sources: &[1],
    drains: &[2],
};

// 0 I, 1 P; n(1; 0, 1).
pub const RING: Network<'static> = Network {
    kinds: &[I, P],
    types: &[TN],
    gates: &[1],
    sources: &[0],
    drains: &[1],
};

// 0 I, 1 N, 2 P, 3 N; n(0; 1, 2), n(0; 2, 3).
pub const FENCE: Network<'static> = Network {
    kinds: &[I, N, P, N],
    types: &[TN, TN],
    gates: &[0, 0],
    sources: &[1, 2],
    drains: &[2, 3],
};

// 0 I, 1 I, 2 N; d(0; 0, 2), d(0; 1, 2).
pub const SHORT: Network<'static> = Network {
    kinds: &[I, I, N],
    types: &[TD, TD],
    gates: &[0, 0],
    sources: &[0, 1],
    drains: &[2, 2],
};

// 0 I, 1 I, 2 N, 3 N; d(0; 0, 2), d(0; 0, 3), d(0; 1, 3).
pub const SPLIT: Network<'static> = Network {
    kinds: &[I, I, N, N],
    types: &[TD, TD, TD],
    gates: &[0, 0, 0],
    sources: &[0, 0, 1],
    drains: &[2, 3, 3],
};

// 0 I, 1 I, 2 N; n(0; 1, 2).
pub const LATCH: Network<'static> = Network {
    kinds: &[I, I, N],
    types: &[TN],
    gates: &[0],
    sources: &[1],
    drains: &[2],
};

// How much of a large network is lent: so many kinds, types, and ends of transistors.
#[derive(Clone, Copy)]
pub struct Size {
    pub nodes: usize,
    pub types: usize,
    pub ends: usize,
    ghost fits: { (nodes ≤ 4097) × (types ≤ 8193) × (ends ≤ 8193) },
}

// Larger than any that is taken: arrays whose fronts are lent, so that nothing that makes one can fail.
#[derive(Clone, Copy)]
pub struct LargeNetwork {
    pub kinds: [u8; 4097],
    pub types: [u8; 8193],
    pub gates: [u16; 8193],
    pub sources: [u16; 8193],
    pub drains: [u16; 8193],
}

impl LargeNetwork {
    // Its front, to be lent.
    pub fn front(&self, size: Size) -> Network<'_>
        ensures { let net = self.now in
            lent result ≡ net_of (take size.nodes net.kinds) (take size.types net.types) (take size.ends net.gates) (take size.ends net.sources) (take size.ends net.drains) }
    {
        Network {
            kinds: &self.kinds[..size.nodes],
            types: &self.types[..size.types],
            gates: &self.gates[..size.ends],
            sources: &self.sources[..size.ends],
            drains: &self.drains[..size.ends],
        }
    }
}

// Nodes 0 and 1, and all others alike.
fn kinds_of(first: u8, second: u8, others: u8) -> [u8; 4097]
    ensures { result ≡ first ∷ second ∷ replicate 4095 others }
{
    let mut kinds = [others; 4097];
    kinds[0] = first;
    kinds[1] = second;
    kinds
}

// Nodes in turn, from the first on; after node 4,095 comes node 0.
pub fn nodes_from(first: usize) -> [u16; 8193]
    ensures { InTurn first 8193 result }
{
    let mut nodes = [0; 8193];
    for (place, node) in nodes.iter_mut().enumerate() {
        *node = ((first % MOST_NODES + place) % MOST_NODES) as u16;
    }
    nodes
}

// A ring of nodes that are all of one kind but for node 0, ground, by transistors of one type and gate; from transistor 4,096 on each is listed
// a second time.
pub fn ring(kind: u8, ty: u8, gate: u16) -> LargeNetwork
    ensures kinds { result.kinds ≡ 3 ∷ replicate 4096 kind }
    ensures types { result.types ≡ replicate 8193 ty }
    ensures gates { result.gates ≡ replicate 8193 gate }
    ensures sources { InTurn 0 8193 result.sources }
    ensures drains { InTurn 1 8193 result.drains }
{
    LargeNetwork {
        kinds: kinds_of(G, kind, kind),
        types: [ty; 8193],
        gates: [gate; 8193],
        sources: nodes_from(0),
        drains: nodes_from(1),
    }
}

// Inverters in a row: node 0 is ground, node 1 the input of the first; each has a pullup.
pub fn inverters() -> LargeNetwork
    ensures kinds { result.kinds ≡ 3 ∷ 2 ∷ replicate 4095 1 }
    ensures types { result.types ≡ replicate 8193 0 }
    ensures gates { InTurn 1 8193 result.gates }
    ensures sources { result.sources ≡ replicate 8193 0 }
    ensures drains { InTurn 2 8193 result.drains }
{
    LargeNetwork {
        kinds: kinds_of(G, I, P),
        types: [TN; 8193],
        gates: nodes_from(1),
        sources: [0; 8193],
        drains: nodes_from(2),
    }
}

#[cfg(test)]
mod tests {
    use super::*;
    use std::test::Fail;

    #[test]
    fn a_ring_of_three(rt: HostRuntime) -> Result<(), Fail> {
        let size = Size {
            nodes: 3,
            types: 3,
            ends: 3,
        };
        let large = ring(N, TD, 0);
        let net = large.front(size);
        assert_eq!(rt; net.kinds, [G, N, N].as_slice());
        assert_eq!(rt; net.types, [TD, TD, TD].as_slice());
        assert_eq!(rt; net.gates, [0, 0, 0].as_slice());
        assert_eq!(rt; net.sources, [0, 1, 2].as_slice());
        assert_eq!(rt; net.drains, [1, 2, 3].as_slice());
        Ok(())
    }

    #[test]
    fn two_inverters(rt: HostRuntime) -> Result<(), Fail> {
        let size = Size {
            nodes: 4,
            types: 2,
            ends: 2,
        };
        let large = inverters();
        let net = large.front(size);
        assert_eq!(rt; net.kinds, [G, I, P, P].as_slice());
        assert_eq!(rt; net.types, [TN, TN].as_slice());
        assert_eq!(rt; net.gates, [1, 2].as_slice());
        assert_eq!(rt; net.sources, [0, 0].as_slice());
        assert_eq!(rt; net.drains, [2, 3].as_slice());
        Ok(())
    }

    #[test]
    fn node_0_follows_node_4095(rt: HostRuntime) -> Result<(), Fail> {
        let nodes = nodes_from(4094);
        assert_eq!(rt; &nodes[..3], [4094, 4095, 0].as_slice());
        Ok(())
    }
}
