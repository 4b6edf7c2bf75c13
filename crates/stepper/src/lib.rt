// One unit step of a network, evaluated in the lent work area: the next states of all nodes from the same old ones.
// The work area of n nodes: the table against 1 in [0, n), the table against 0 in [n, 2n), the nodes that are kept and a queue in [2n, 3n), the
// lists of branches from 3n on; at the end the next states in [0, n).
#![tactic(auto)]

ghost use Rattle.std.specs.Prelude.{◌≡◌, ◌*◌, ◌≤◌, cond, length};
ghost use Rattle.model.specs.Net.{alone, input_kind, transistors};
ghost use Rattle.model.specs.Lent.{lent};
ghost use Rattle.model.specs.Bounds.{most_nodes};
ghost use Rattle.basis.specs.Sound.{Checked};
ghost use Rattle.basis.specs.Cells.{Written, Bytes};
ghost use Rattle.basis.specs.Steps.{rule_one, Evaluated};
ghost use Rattle.stepper.specs.Step.{FillableSome, FullAny, decided, next};

use branches::Wiring;
use model::Network;
use strengths::Spread;

// The greatest strength, that of an input.
const TOP: u16 = 3;

// Strengths spread in the table at `table`, no transistor with a ceiling: among the nodes that are kept, where their list leaves room for a queue, else
// among all; how many branches were visited.
#[tactic(auto, using(crate::proofs::Fills::ready_all, crate::proofs::Fills::full_all, crate::proofs::Fills::ready_kept, crate::proofs::Fills::small_kept, crate::proofs::Fills::full_kept))]
fn fill(wiring: &Wiring, work: &mut [u16], table: usize, kept: usize) -> usize
    requires { (kept ≤ wiring.now.nodes) × FillableSome wiring.now table kept work.old }
    ensures { FullAny wiring.now table kept work.old work.new × (result ≤ 2 * length wiring.now.sources.now) }
{
    let n = wiring.nodes;
    let among_all = Spread {
        wiring: *wiring,
        ceilings: &[],
        all: true,
        table,
        order: None,
        members: n,
        queue: 2 * n,
    };
    if 2 * kept <= n {
        let among_kept = Spread {
            order: Some(2 * n),
            members: kept,
            queue: 2 * n + kept,
            ..among_all
        };
        among_kept.spread_all(work, TOP, 0)
    } else {
        among_all.spread_all(work, TOP, 0)
    }
}

// The state that the cells of the tables against 0 and against 1 decide.
fn decide(against_0: u16, against_1: u16) -> u16
    ensures { (result ≡ decided against_0 against_1) × (result ≤ 255) }
{
    if against_0 % 2 == 0 {
        0
    } else {
        1 + against_1 % 2
    }
}

// The next state of a node of this kind, by its old one and its cells in both tables.
fn next_state(kind: u8, old: u8, against_0: u16, against_1: u16) -> u16
    ensures { (result ≡ cond (input_kind kind) old (decided against_0 against_1)) × (result ≤ 255) }
{
    let new = decide(against_0, against_1);
    if model::is_input(kind) {
        u16::from(old)
    } else {
        new
    }
}

// The next states, in work[0..n]. All that a node needs is read before anything is decided: so the loop takes many nodes at a time, without a branch.
fn finish(kinds: &[u8], states: &[u8], work: &mut [u16])
    requires { let n = length kinds.now in
        (length states.now ≡ n) × (2 * n ≤ length work.old) × (n ≤ most_nodes) }
    ensures { let n = length kinds.now in
        let new = next (alone kinds.now) states.now work.old in
        Written new work.old 0 n work.new × Bytes n work.new }
{
    let n = kinds.len();
    for v in 0..n {
        work[v] = next_state(kinds[v], states[v], work[n + v], work[v]);
    }
}

// One step, as `evaluate` takes it, and how many branches were visited: the joined sets and both tables visit each at most once.
pub fn evaluate_counted(net: &Network, states: &[u8], work: &mut [u16]) -> usize
    requires { Checked (lent net.now) states.now (length work.old) }
    ensures { let net = lent net.now in
        Evaluated (rule_one net) states.now work.old work.new × (result ≤ 6 * transistors net) }
{
    let wiring = Wiring {
        nodes: net.kinds.len(),
        sources: net.sources,
        drains: net.drains,
    };
    layout::lay_out(net, states, work);
    let parts = joined::part_all(&wiring, work);
    let first = fill(&wiring, work, wiring.nodes, parts.kept);
    let second = fill(&wiring, work, 0, parts.kept);
    finish(net.kinds, states, work);
    parts.visits + first + second
}

// One step: the next states in work[0..n]; the cells from 4n + 2t on stay.
pub fn evaluate(net: &Network, states: &[u8], work: &mut [u16])
    requires { Checked (lent net.now) states.now (length work.old) }
    ensures { Evaluated (rule_one (lent net.now)) states.now work.old work.new }
{
    evaluate_counted(net, states, work);
}
