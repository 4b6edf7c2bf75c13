// The judges of what is lent, one for each entry. Each finds the first rule that is broken, at the first place that breaks it,
// in the order of the answers' numbers, and writes nothing. Four end alike but for the refusal that they make of a place: one function for these
// would take the constructor, with clauses for what it gives, and each call would be as long.
#![tactic(auto)]

ghost use Rattle.std.specs.Prelude.{◌≤◌, ◌≡◌, [], ◌∷◌, length};
ghost use Rattle.model.specs.Bounds.{most_nodes};
ghost use Rattle.model.specs.Lent.{lent, asked};
ghost use Rattle.model.specs.Rules.{judge, kind_rule, wire_rule, state_rule, check_rules, reset_rules, step_rules, run_rules, unit_rules, ternary_rules};
ghost use Rattle.basis.specs.Sound.{Sized, SizedChanges};

use model::{Answer, ChangeList, HIGHEST_KIND, HIGHEST_LIMIT, HIGHEST_STATE, Network};
use sizes::{wrong_check_sizes, wrong_reset_sizes, wrong_run_sizes, wrong_step_sizes};
use tables::{first_above, first_wrong_change, first_wrong_wire};

// The kinds.
fn judge_kinds(kinds: &[u8]) -> Result<(), Answer>
    requires { length kinds.now ≤ most_nodes }
    ensures { result ≡ judge (kind_rule kinds.now ∷ []) }
{
    match first_above(kinds, HIGHEST_KIND) {
        Some(node) => Err(Answer::Kind(node as u32)),
        None => Ok(()),
    }
}

// The kinds, then the transistors.
fn judge_tables(net: &Network) -> Result<(), Answer>
    requires { Sized (lent net.now) }
    ensures { let net = lent net.now in result ≡ judge (kind_rule net.kinds ∷ wire_rule net ∷ []) }
{
    judge_kinds(net.kinds)?;
    match first_wrong_wire(net) {
        Some(transistor) => Err(Answer::Wire(transistor as u32)),
        None => Ok(()),
    }
}

// The kinds, the transistors, then the states.
fn judge_contents(net: &Network, states: &[u8]) -> Result<(), Answer>
    requires { Sized (lent net.now) × (length states.now ≡ length net.now.kinds.now) }
    ensures { let net = lent net.now in
        result ≡ judge (kind_rule net.kinds ∷ wire_rule net ∷ state_rule states.now ∷ []) }
{
    judge_tables(net)?;
    match first_above(states, HIGHEST_STATE) {
        Some(node) => Err(Answer::State(node as u32)),
        None => Ok(()),
    }
}

// The kinds, the transistors, the states, then the changes.
#[tactic(auto, unfolding(model::specs::Rules::run_rules, model::specs::Rules::change_tests))]
fn judge_run(net: &Network, states: &[u8], changes: &ChangeList) -> Result<(), Answer>
    requires { Sized (lent net.now)
        × (length states.now ≡ length net.now.kinds.now)
        × SizedChanges (asked changes.now) }
    ensures { result ≡ judge (run_rules (lent net.now) states.now (asked changes.now)) }
{
    judge_contents(net, states)?;
    match first_wrong_change(net.kinds, changes) {
        Some(entry) => Err(Answer::Change(entry as u32)),
        None => Ok(()),
    }
}

// What check is lent.
#[tactic(auto, unfolding(model::specs::Rules::check_rules))]
pub fn judge_check(net: &Network) -> Result<(), Answer>
    ensures { result ≡ judge (check_rules (lent net.now)) }
{
    if wrong_check_sizes(net) {
        return Err(Answer::Size);
    }
    judge_tables(net)
}

// What reset is lent. The old states are not tested.
#[tactic(auto, using(basis::proofs::Fitting::reset_sized), unfolding(model::specs::Rules::reset_rules))]
pub fn judge_reset(kinds: &[u8], states: &[u8]) -> Result<(), Answer>
    ensures { result ≡ judge (reset_rules kinds.now states.now) }
{
    if wrong_reset_sizes(kinds, states) {
        return Err(Answer::Size);
    }
    judge_kinds(kinds)
}

// What a step is lent.
#[tactic(auto, using(basis::proofs::Fitting::step_sized), unfolding(model::specs::Rules::step_rules))]
pub fn judge_step(net: &Network, states: &[u8], work: &[u16]) -> Result<(), Answer>
    ensures { result ≡ judge (step_rules (lent net.now) states.now work.now) }
{
    if wrong_step_sizes(net, states, work) {
        return Err(Answer::Size);
    }
    judge_contents(net, states)
}

// What a unit run is lent.
#[tactic(auto, using(basis::proofs::Fitting::run_sized, basis::proofs::Fitting::step_sized), unfolding(model::specs::Rules::unit_rules))]
pub fn judge_unit(
    net: &Network,
    states: &[u8],
    changes: &ChangeList,
    limit: u32,
    work: &[u16],
) -> Result<(), Answer>
    ensures { result ≡ judge (unit_rules (lent net.now) states.now (asked changes.now) limit work.now) }
{
    if wrong_run_sizes(net, states, changes, work) {
        return Err(Answer::Size);
    }
    if limit > HIGHEST_LIMIT {
        return Err(Answer::Limit);
    }
    judge_run(net, states, changes)
}

// What a ternary run is lent.
#[tactic(auto, using(basis::proofs::Fitting::run_sized, basis::proofs::Fitting::step_sized), unfolding(model::specs::Rules::ternary_rules))]
pub fn judge_ternary(
    net: &Network,
    states: &[u8],
    changes: &ChangeList,
    work: &[u16],
) -> Result<(), Answer>
    ensures { result ≡ judge (ternary_rules (lent net.now) states.now (asked changes.now) work.now) }
{
    if wrong_run_sizes(net, states, changes, work) {
        return Err(Answer::Size);
    }
    judge_run(net, states, changes)
}
