// The nodes are parted into the sets that sure branches join: each set is flooded once, and both tables begin with what its nodes tell of sources together.
// What touches cells alone takes the work area and the number of nodes, and no wiring.
#![tactic(auto)]

ghost use Rattle.std.specs.Prelude.{◌≡◌, ◌&&◌, ◌*◌, ◌≤◌, ◌<◌, length, eqb};
ghost use Rattle.branches.specs.Code.{telling};
ghost use Rattle.joined.specs.Sets.{StartableSome, PartedAny};
ghost use Rattle.joined.specs.Floods.{Reached, Followed, Fanned, Flooded, Begun, BegunAll, Turned};
ghost use Rattle.joined.specs.Kept.{Room, Visitable, Fannable, Floodable, Listed, Turnable};

use branches::{TELLING, Wiring};

// How many nodes are kept, and how many branches were visited.
#[derive(Clone, Copy)]
pub struct Parts {
    pub kept: usize,
    pub visits: usize,
}

// A flood: where its queue ends, what the nodes in it tell of sources together, whether neither an unsure branch nor an offer touches those that were
// taken from it, and how many branches were visited.
#[derive(Clone, Copy)]
pub struct Found {
    pub tail: usize,
    pub code: u16,
    pub sure: bool,
    pub visits: usize,
}

// Node b joins the set that is flooded, unless it was taken.
#[tactic(auto, using(crate::specs::Floods::taken, crate::proofs::Reaching::joins_by))]
fn reach(work: &mut [u16], n: usize, b: usize, found: Found) -> Found
    requires { Room n work.old found.tail × (b < n) }
    ensures { Reached n b work.old found work.new result }
{
    let m = work[n + b];
    if m < TELLING {
        return found;
    }
    work[n + b] = 0;
    work[2 * n + found.tail] = b as u16;
    Found {
        tail: found.tail + 1,
        code: branches::together(found.code, m),
        ..found
    }
}

// One entry of a node's list: an unsure branch is not followed.
#[tactic(auto, using(crate::specs::Floods::passed, crate::specs::Floods::along))]
fn follow(wiring: &Wiring, work: &mut [u16], e: usize, found: Found) -> Found
    requires { Visitable wiring.now e work.old found }
    ensures { Followed wiring.now e work.old found work.new result }
{
    if e % 2 == 1 {
        return Found {
            sure: false,
            visits: found.visits + 1,
            ..found
        };
    }
    let b = wiring.far(e / 2 - 1);
    let r = reach(work, wiring.nodes, b, found);
    Found {
        visits: r.visits + 1,
        ..r
    }
}

// No offer touches the set so far.
fn untouched(sure: bool, offer: u16) -> bool
    ensures { result ≡ (sure && eqb offer 0) }
{
    sure && offer == 0
}

// All branches of node a.
fn fan(wiring: &Wiring, work: &mut [u16], a: usize, start: Found) -> Found
    requires { Fannable wiring.now a work.old start }
    ensures { Fanned wiring.now a work.old start work.new result }
{
    let n = wiring.nodes;
    let mut found = Found {
        sure: untouched(start.sure, work[a]),
        ..start
    };
    let mut e = usize::from(work[3 * n + a]);
    while e != 0 {
        found = follow(wiring, work, e, found);
        e = usize::from(work[4 * n + (e / 2 - 1)]);
    }
    found
}

// The set of node v, in the queue from `start`'s end on.
fn flood(wiring: &Wiring, work: &mut [u16], v: usize, start: Found) -> Found
    requires { Floodable wiring.now v work.old start }
    ensures { Flooded wiring.now v work.old start work.new result }
{
    let n = wiring.nodes;
    let mut found = reach(work, n, v, start);
    let mut k = start.tail;
    // The queue grows while it is emptied.
    while k < found.tail {
        let a = usize::from(work[2 * n + k]);
        found = fan(wiring, work, a, found);
        k += 1;
    }
    found
}

// Both tables begin at node a, of whose set `code` tells.
#[tactic(auto, using(crate::proofs::Beginning::begun_by))]
fn begin_at(work: &mut [u16], n: usize, a: usize, code: u16)
    requires { (n ≤ 4096) × (2 * n ≤ length work.old) × (a < n) × (telling 1 1 ≤ code) }
    ensures { Begun n a code work.old work.new }
{
    let u = work[a];
    work[a] = branches::begin(1, code, u);
    work[n + a] = branches::begin(0, code, u);
}

// Both tables begin at the nodes of a set, which stand in the queue.
fn begin_all(work: &mut [u16], n: usize, from: usize, to: usize, code: u16)
    requires { Listed n from to work.old × (telling 1 1 ≤ code) }
    ensures { BegunAll n code from work.old to work.new }
{
    for k in from..to {
        let a = usize::from(work[2 * n + k]);
        begin_at(work, n, a, code);
    }
}

// The set of node v, unless v was taken: it is kept where an unsure branch or an offer touches it.
fn part(wiring: &Wiring, work: &mut [u16], v: usize, parts: Parts) -> Parts
    requires { Turnable wiring.now v work.old parts }
    ensures { Turned wiring.now v work.old parts work.new result }
{
    let n = wiring.nodes;
    let m = work[n + v];
    if m < TELLING {
        return parts;
    }
    if work[3 * n + v] == 0 {
        begin_at(work, n, v, m);
        return parts;
    }
    let Parts { kept, visits } = parts;
    let start = Found {
        tail: kept,
        code: m,
        sure: true,
        visits,
    };
    let found = flood(wiring, work, v, start);
    begin_all(work, n, kept, found.tail, found.code);
    Parts {
        kept: if found.sure { kept } else { found.tail },
        visits: found.visits,
    }
}

// The sets of all nodes: what both tables begin with, and the nodes of the sets that are kept, at 2n.
pub fn part_all(wiring: &Wiring, work: &mut [u16]) -> Parts
    requires { StartableSome wiring.now work.old }
    ensures { PartedAny wiring.now work.old work.new result.kept × (result.visits ≤ 2 * length wiring.now.sources.now) }
{
    let mut parts = Parts { kept: 0, visits: 0 };
    for v in 0..wiring.nodes {
        parts = part(wiring, work, v, parts);
    }
    parts
}
