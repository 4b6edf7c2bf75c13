// The simulator's entries. Each checks all that it is lent, answers with one of nine kinds of answer, and says in its contract what it
// answers and what it leaves in each buffer that it may write, on every input.
#![tactic(auto)]

ghost use Rattle.std.specs.Prelude.{◌≡◌, []};
ghost use Rattle.model.specs.Lent.{lent, asked};
ghost use Rattle.model.specs.Entries.{check_answer, reset_outcome, step_outcome, unit_outcome, ternary_outcome, Leaves};

use model::{Answer, ChangeList, Network};

// DONE, with place and counts of 0.
const DONE: Answer = Answer::Done {
    place: 0,
    first: 0,
    second: 0,
};

// Checks a network: its kinds and its transistor tables.
#[tactic(auto, using(crate::proofs::Given::check_refused, crate::proofs::Given::check_accepted))]
pub fn check(net: &Network) -> Answer
    ensures { result ≡ check_answer (lent net.now) }
{
    match judges::judge_check(net) {
        Ok(()) => DONE,
        Err(refusal) => refusal,
    }
}

// Resets the states of a network, whatever they were: ground comes up at 0, power at 1, every other node at X.
#[tactic(auto, using(basis::proofs::Acceptance::reset_level, crate::proofs::Given::reset_refused, crate::proofs::Given::reset_accepted))]
pub fn reset(kinds: &[u8], states: &mut [u8]) -> Answer
    ensures { Leaves (reset_outcome kinds.now states.old) result states.new [] }
{
    match judges::judge_reset(kinds, states) {
        Ok(()) => {
            cells::reset_states(kinds, states);
            DONE
        }
        Err(refusal) => refusal,
    }
}

// Takes one unit step, and answers with the first node whose state differs after it, or the number of nodes where none does, and with how
// many differ.
#[tactic(auto, using(crate::proofs::Given::step_refused))]
pub fn step(net: &Network, states: &mut [u8], work: &mut [u16]) -> Answer
    ensures { Leaves (step_outcome (lent net.now) states.old work.old) result states.new work.new }
{
    match judges::judge_step(net, states, work) {
        Ok(()) => accepted::take_step(net, states, work),
        Err(refusal) => refusal,
    }
}

// Makes a unit run: the changes are entered, then steps follow until nothing moves, or to the limit; there it answers with the first node
// that the next step would change. The limit 0 stands for the default.
#[tactic(auto, using(crate::proofs::Given::unit_refused))]
pub fn unit_run(
    net: &Network,
    states: &mut [u8],
    changes: &ChangeList,
    limit: u32,
    work: &mut [u16],
) -> Answer
    ensures { let outcome = unit_outcome (lent net.now) states.old (asked changes.now) limit work.old in
        Leaves outcome result states.new work.new }
{
    match judges::judge_unit(net, states, changes, limit, work) {
        Ok(()) => accepted::run_unit(net, states, changes, limit, work),
        Err(refusal) => refusal,
    }
}

// Makes a ternary run from a settled start: changed inputs at X until nothing moves, then at their new states until nothing moves.
#[tactic(auto, using(crate::proofs::Given::ternary_refused))]
pub fn ternary_run(
    net: &Network,
    states: &mut [u8],
    changes: &ChangeList,
    work: &mut [u16],
) -> Answer
    ensures { let outcome = ternary_outcome (lent net.now) states.old (asked changes.now) work.old in
        Leaves outcome result states.new work.new }
{
    match judges::judge_ternary(net, states, changes, work) {
        Ok(()) => accepted::run_ternary(net, states, changes, work),
        Err(refusal) => refusal,
    }
}
