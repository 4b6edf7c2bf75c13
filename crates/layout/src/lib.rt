// One look at each transistor: what inputs bring is put at once into the cells of the nodes at the other ends, and what is not open between
// other nodes is put into the lists of branches. The work area of n nodes: in [0, n) what inputs bring through unknown transistors, in [n, 2n)
// the sources of each node, in [3n, 4n) the last branch of each node, from 4n on the branch before each, 0 where there is none: the cells that are
// lent are all the memory there is, and hold numbers.
#![tactic(auto)]

ghost use Rattle.std.specs.Prelude.{◌≡◌, ◌+◌, ◌*◌, ◌≤◌, ◌<◌, length};
ghost use Rattle.model.specs.Bounds.{most_nodes, most_transistors};
ghost use Rattle.model.specs.Places.{at};
ghost use Rattle.model.specs.Net.{transistors, stand};
ghost use Rattle.model.specs.Lent.{lent};
ghost use Rattle.basis.specs.Sound.{Checked};
ghost use Rattle.basis.specs.Cells.{Written};
ghost use Rattle.layout.specs.Layout.{LaidOut};
ghost use Rattle.layout.specs.Look.{source_of, source_at, gave, meant, unsure, brought, entry_of, pushed, Seated, LaidOne, LaidNext};

use model::Network;

// What a cell tells, 64 + 4k + m for the strength k and the mark m: of a pullup alone; but for its mark, of another node alone, and of an input. Numbers,
// since the lent work area has cells of 16 bits.
const PULLED_UP: u16 = 74;

const STORED: u16 = 68;

const DRIVEN: u16 = 76;

// How a transistor stands.
#[derive(Clone, Copy, PartialEq, Eq)]
enum Stand {
    Open,
    Closed,
    Unknown,
}

impl Stand {
    // By its type and its gate's state.
    fn of(ty: u8, gate: u8) -> Stand
        ensures { meant result ≡ stand ty gate }
    {
        let gated = ty <= 1;
        if gated && ty == gate {
            Stand::Open
        } else if gated && 1 < gate {
            Stand::Unknown
        } else {
            Stand::Closed
        }
    }
}

// What the cell of a node tells before any transistor: the node alone is its source; 0 for an input.
#[tactic(auto, using(crate::proofs::Begun::source_input, crate::proofs::Begun::source_pullup, crate::proofs::Begun::source_normal, crate::proofs::Telling::mark_limit))]
fn source_of(kind: u8, state: u8) -> u16
    ensures { result ≡ source_of kind state }
{
    if model::is_input(kind) {
        0
    } else if kind == model::PULLUP {
        PULLED_UP
    } else {
        STORED + branches::mark_of(state)
    }
}

// Each node alone, in work[n..2n]. A node's kind and state are read before anything is decided: so the loop takes many nodes at a time, without a branch.
fn begin_sources(kinds: &[u8], states: &[u8], work: &mut [u16])
    requires { let n = length kinds.now in (length states.now ≡ n) × (2 * n ≤ length work.old) }
    ensures { let n = length kinds.now in
        Written (source_at kinds.now states.now) work.old n n work.new }
{
    let n = kinds.len();
    for v in 0..n {
        work[n + v] = source_of(kinds[v], states[v]);
    }
}

// The cell at `place` tells of the sources of x too.
#[tactic(auto, using(crate::proofs::Gave::gave_is, crate::proofs::Gave::gave_same))]
fn give(work: &mut [u16], place: usize, x: u16)
    requires { place < length work.old }
    ensures { work.new ≡ gave place x work.old }
{
    let m = work[place];
    if m != x {
        work[place] = branches::together(m, x);
    }
}

// The input `from` brings its state to node `to`, where n nodes are, through a transistor that is closed or unknown.
#[tactic(auto, using(crate::proofs::Telling::mark_limit))]
fn offer(states: &[u8], work: &mut [u16], n: usize, from: usize, to: usize, stand: Stand)
    requires { (from < length states.now) × (to < n) × (n ≤ most_nodes) × (2 * n ≤ length work.old) }
    ensures { work.new ≡ brought (unsure stand) n to (at states.now from) work.old }
{
    let place = if stand == Stand::Unknown { to } else { n + to };
    give(work, place, DRIVEN + branches::mark_of(states[from]));
}

// How the lists name branch h.
fn entry_of(h: usize, stand: Stand) -> u16
    requires { h < 2 * most_transistors }
    ensures { result ≡ entry_of h (unsure stand) }
{
    if stand == Stand::Unknown {
        (2 * h + 3) as u16
    } else {
        (2 * h + 2) as u16
    }
}

// Puts branch h before the list of node v, where n nodes are.
#[tactic(auto, using(crate::proofs::Lists::pushed_is))]
fn push(work: &mut [u16], n: usize, v: usize, h: usize, stand: Stand)
    requires { (v < n) × (n ≤ most_nodes) × (h < 2 * most_transistors) × (4 * n + h < length work.old) }
    ensures { work.new ≡ pushed n v h (unsure stand) work.old }
{
    work[4 * n + h] = work[3 * n + v];
    work[3 * n + v] = entry_of(h, stand);
}

// Transistor t, which is closed or unknown.
fn lay_one(net: &Network, states: &[u8], work: &mut [u16], t: usize, stand: Stand)
    requires { Seated net.now.kinds.now states.now net.now.sources.now net.now.drains.now t (length work.old) }
    ensures { let net = lent net.now in
        LaidOne net.kinds states.now (at net.sources t) (at net.drains t) t (unsure stand) work.old work.new }
{
    let n = net.kinds.len();
    let a = usize::from(net.sources[t]);
    let b = usize::from(net.drains[t]);
    match (model::is_input(net.kinds[a]), model::is_input(net.kinds[b])) {
        (false, false) => {
            push(work, n, a, 2 * t, stand);
            push(work, n, b, 2 * t + 1, stand);
        }
        (true, false) => offer(states, work, n, a, b, stand),
        (false, true) => offer(states, work, n, b, a, stand),
        (true, true) => {}
    }
}

// Transistor t, if it is not open.
fn lay(net: &Network, states: &[u8], work: &mut [u16], t: usize)
    requires { Checked (lent net.now) states.now (length work.old) × (t < length net.now.types.now) }
    ensures { LaidNext (lent net.now) states.now t work.old work.new }
{
    match Stand::of(net.types[t], states[usize::from(net.gates[t])]) {
        Stand::Open => {}
        stand => lay_one(net, states, work, t, stand),
    }
}

// All transistors: the sources of each node, what unknown transistors may bring it, and the lists of branches.
#[tactic(auto, using(basis::proofs::Acceptance::checked_with, crate::proofs::Looks::laid_end))]
pub fn lay_out(net: &Network, states: &[u8], work: &mut [u16])
    requires { Checked (lent net.now) states.now (length work.old) }
    ensures { let net = lent net.now in LaidOut net states.now (transistors net) work.old work.new }
{
    // The copy stays in registers: what is stored in `work` can't alter it.
    let net = *net;
    let n = net.kinds.len();
    cells::zero(work, 0, n);
    begin_sources(net.kinds, states, work);
    cells::zero(work, 3 * n, n);
    for t in 0..net.types.len() {
        lay(&net, states, work, t);
    }
}
