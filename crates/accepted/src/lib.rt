// What an entry does once all that it is lent is accepted: it runs, and clears the work cells that it used.
#![tactic(auto)]

ghost use Rattle.std.specs.Prelude.{◌≡◌, MatchResult, Ok};
ghost use Rattle.model.specs.Lent.{lent, asked};
ghost use Rattle.model.specs.Rules.{judge, step_rules, unit_rules, ternary_rules};
ghost use Rattle.model.specs.Entries.{step_outcome, unit_outcome, ternary_outcome, Leaves};

use model::{Answer, ChangeList, Network};
use runs::{Halves, Moved, Moving};
use sizes::cells_for;

// One step; the first node that differs after it, and how many do.
#[tactic(auto, using(basis::proofs::Acceptance::step_accepted, basis::proofs::Acceptance::checked))]
pub fn take_step(net: &Network, states: &mut [u8], work: &mut [u16]) -> Answer
    requires { judge (step_rules (lent net.now) states.old work.old) ≡ Ok tt }
    ensures { Leaves (step_outcome (lent net.now) states.old work.old) result states.new work.new }
{
    let used = cells_for(net.kinds.len(), net.types.len());
    let Moved { first, count } = runs::step_once(net, states, work);
    cells::clear(work, used);
    Answer::Done {
        place: first,
        first: count,
        second: 0,
    }
}

// The answer of a run that ended so, within the limit in force.
fn ran_answer(ran: Result<u32, Moving>, limit: u32) -> Answer
    ensures { MatchResult ran (λ count. result ≡ Answer.Done 0 count 0) (λ moving. result ≡ Answer.Oscillates moving.place limit) }
{
    match ran {
        Ok(count) => Answer::Done {
            place: 0,
            first: count,
            second: 0,
        },
        Err(Moving { place, .. }) => Answer::Oscillates { place, limit },
    }
}

// The changes are entered, then steps follow, at most as many as the limit.
#[tactic(auto, using(basis::proofs::Acceptance::unit_accepted, basis::proofs::Acceptance::checked, basis::proofs::Acceptance::named))]
pub fn run_unit(
    net: &Network,
    states: &mut [u8],
    changes: &ChangeList,
    limit: u32,
    work: &mut [u16],
) -> Answer
    requires { judge (unit_rules (lent net.now) states.old (asked changes.now) limit work.old) ≡ Ok tt }
    ensures { let outcome = unit_outcome (lent net.now) states.old (asked changes.now) limit work.old in
        Leaves outcome result states.new work.new }
{
    let used = cells_for(net.kinds.len(), net.types.len());
    let ran = runs::unit_core(net, states, changes, limit, work);
    cells::clear(work, used);
    ran_answer(ran, runs::limit_of(limit))
}

// From a settled start, steps with the changed inputs at X, then at their new states.
#[tactic(auto, using(basis::proofs::Acceptance::ternary_accepted, basis::proofs::Acceptance::checked))]
pub fn run_ternary(
    net: &Network,
    states: &mut [u8],
    changes: &ChangeList,
    work: &mut [u16],
) -> Answer
    requires { judge (ternary_rules (lent net.now) states.old (asked changes.now) work.old) ≡ Ok tt }
    ensures { let outcome = ternary_outcome (lent net.now) states.old (asked changes.now) work.old in
        Leaves outcome result states.new work.new }
{
    let used = cells_for(net.kinds.len(), net.types.len());
    if !runs::settled(net, states, work) {
        cells::clear(work, used);
        return Answer::Start;
    }
    let Halves { first, second } = runs::ternary_core(net, states, changes, work);
    cells::clear(work, used);
    Answer::Done {
        place: 0,
        first,
        second,
    }
}
