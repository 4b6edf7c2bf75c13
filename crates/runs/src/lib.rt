// Loops over steps: changes entered, steps until the state is settled, and from these the unit run and the ternary run, on tables
// that were checked. `Checked` is of the network, the states and the work area together. It stands in the contracts and in no type: what is called
// borrows states and work apart, one to read and one to write, so that a type of the three would be taken apart at every call. A limit is the number that
// a caller lends, with its bound in the clauses: the judges have tested it, and no type is between.
#![tactic(auto)]

ghost use Rattle.std.specs.Prelude.{◌≡◌, ◌≤◌, length};
ghost use Rattle.model.specs.Bounds.{highest_limit};
ghost use Rattle.model.specs.Lent.{lent, asked};
ghost use Rattle.model.specs.Net.{nodes, is_input, step};
ghost use Rattle.model.specs.Run.{settle, limit_of, unit_steps};
ghost use Rattle.model.specs.Demands.{Enterable};
ghost use Rattle.basis.specs.Sound.{Checked, Named};
ghost use Rattle.basis.specs.Steps.{rule_one, Stepped, Told, Halved};
ghost use Rattle.runs.specs.Results.{EndedAs, count};

use model::{ChangeList, Network};

// What a step changed: the first node, or the number of nodes where it changed none; and how many.
#[derive(Clone, Copy)]
pub struct Moved {
    pub first: u32,
    pub count: u32,
}

// Steps that have not settled: the first node that the next one would change, and how many were taken.
#[derive(Clone, Copy)]
pub struct Moving {
    pub place: u32,
    pub count: u32,
}

// The steps of the two halves of a ternary run.
#[derive(Clone, Copy)]
pub struct Halves {
    pub first: u32,
    pub second: u32,
}

// One step; the first node that differs after it, and how many do.
pub fn step_once(net: &Network, states: &mut [u8], work: &mut [u16]) -> Moved
    requires { Checked (lent net.now) states.old (length work.old) }
    ensures { let by = rule_one (lent net.now) in
        Stepped by states.old work.old result.first result.count states.new work.new }
{
    stepper::evaluate(net, states, work);
    let first = cells::first_changed(states, work);
    let count = cells::differing(states, work);
    cells::store(states, work);
    Moved { first, count }
}

// Whether a step would alter nothing.
pub fn settled(net: &Network, states: &[u8], work: &mut [u16]) -> bool
    requires { Checked (lent net.now) states.now (length work.old) }
    ensures { Told (rule_one (lent net.now)) states.now work.old result work.new }
{
    stepper::evaluate(net, states, work);
    cells::first_changed(states, work) == states.len() as u32
}

// Steps until settled, at most `limit` of them: how many, or what still moves. The step that alters nothing is not counted.
pub fn settle(net: &Network, states: &mut [u8], limit: u32, work: &mut [u16]) -> Result<u32, Moving>
    requires { Checked (lent net.now) states.old (length work.old) × (limit ≤ highest_limit) }
    ensures { let net = lent net.now in
        let run = settle (step net) limit 0 states.old in
        EndedAs (rule_one net) run work.old result states.new work.new }
{
    // No `for` over the counts: its end would never be reached.
    let mut count = 0;
    loop {
        stepper::evaluate(net, states, work);
        let place = cells::first_changed(states, work);
        if place == states.len() as u32 {
            return Ok(count);
        }
        if count == limit {
            return Err(Moving { place, count });
        }
        cells::store(states, work);
        count += 1;
    }
}

// The limit in force: 0 stands for the default, as the C interface has it.
pub fn limit_of(limit: u32) -> u32
    ensures { result ≡ limit_of limit }
{
    if limit == 0 {
        model::DEFAULT_LIMIT
    } else {
        limit
    }
}

// A unit run: the changes are entered, then steps follow.
pub fn unit_core(
    net: &Network,
    states: &mut [u8],
    changes: &ChangeList,
    limit: u32,
    work: &mut [u16],
) -> Result<u32, Moving>
    requires { let net = lent net.now in
        Checked net states.old (length work.old) × Named (asked changes.now) (nodes net) × (limit ≤ highest_limit) }
    ensures { let net = lent net.now in
        let run = unit_steps (step net) states.old (asked changes.now) limit in
        EndedAs (rule_one net) run work.old result states.new work.new }
{
    cells::enter(states, changes);
    settle(net, states, limit_of(limit), work)
}

// How many steps were taken, settled or not.
fn steps_taken(ran: Result<u32, Moving>) -> u32
    ensures { result ≡ count ran }
{
    match ran {
        Ok(count) | Err(Moving { count, .. }) => count,
    }
}

// A ternary run: steps with the changed inputs at X, and from where these end, steps with them at their new states. As many steps
// as there are nodes are enough for each half.
pub fn ternary_core(
    net: &Network,
    states: &mut [u8],
    changes: &ChangeList,
    work: &mut [u16],
) -> Halves
    requires { let net = lent net.now in
        let changes = changes.now in
        Checked net states.old (length work.old) × (length changes.states.now ≡ length changes.nodes.now)
        × Enterable (nodes net) (is_input net) (asked changes) }
    ensures { Halved (rule_one (lent net.now)) states.old (asked changes.now) work.old result.first result.second states.new work.new }
{
    let n = net.kinds.len() as u32;
    cells::raise_changed(states, changes);
    let first = steps_taken(settle(net, states, n, work));
    cells::enter(states, changes);
    let second = steps_taken(settle(net, states, n, work));
    Halves { first, second }
}
