// Single tables, written or compared place by place: work cells at 0, states as reset leaves them, changes entered, an evaluated step taking
// effect. Where a table is written from another, by place: of an `iter_mut` that is zipped std does not say what it leaves.
// States and the cells of their next states are lent apart, and stay two.
#![tactic(auto)]

ghost use Rattle.std.specs.Prelude.{◌+◌, ◌≤◌, ◌≡◌, not, cond, length, eqb};
ghost use Rattle.model.specs.Places.{tab, at};
ghost use Rattle.model.specs.Bounds.{most_nodes};
ghost use Rattle.model.specs.Lent.{asked};
ghost use Rattle.model.specs.Run.{entered, raised};
ghost use Rattle.model.specs.Entries.{altered, first_changed, reset_state, reset_states, cleared};
ghost use Rattle.basis.specs.Sound.{Named, Once};
ghost use Rattle.basis.specs.Cells.{Written, Bytes};

use model::{ChangeList, GROUND, POWER};

// Zeros in work[first..first + count].
pub fn zero(work: &mut [u16], first: usize, count: usize)
    requires { first + count ≤ length work.old }
    ensures { Written (λ k. 0) work.old first count work.new }
{
    work[first..first + count].fill(0);
}

// The first `used` work cells become 0.
pub fn clear(work: &mut [u16], used: usize)
    requires { used ≤ length work.old }
    ensures { work.new ≡ cleared used work.old }
{
    zero(work, 0, used);
}

// What reset gives a node of this kind: ground 0, power 1, all else X.
fn reset_state(kind: u8) -> u8
    ensures { result ≡ reset_state kind }
{
    match kind {
        GROUND => 0,
        POWER => 1,
        _ => 2,
    }
}

// The rails come up live, every other node at X.
pub fn reset_states(kinds: &[u8], states: &mut [u8])
    requires { length states.old ≡ length kinds.now }
    ensures { states.new ≡ reset_states kinds.now }
{
    for (node, kind) in kinds.iter().enumerate() {
        states[node] = reset_state(*kind);
    }
}

// The named nodes take their new states.
pub fn enter(states: &mut [u8], changes: &ChangeList)
    requires { Named (asked changes.now) (length states.old) }
    ensures { states.new ≡ entered states.old (asked changes.now) }
{
    for (node, new) in changes.nodes.iter().zip(changes.states) {
        states[usize::from(*node)] = *new;
    }
}

// A state that is to change is X in between.
fn raised_state(old: u8, new: u8) -> u8
    ensures { result ≡ cond (eqb old new) old 2 }
{
    if old == new { old } else { 2 }
}

// The named nodes whose new state differs from their present one take X. A loop of its own: one that `enter` shares would take a closure,
// and be longer than both.
pub fn raise_changed(states: &mut [u8], changes: &ChangeList)
    requires { Named (asked changes.now) (length states.old) × Once (asked changes.now) }
    ensures { states.new ≡ raised states.old (entered states.old (asked changes.now)) }
{
    for (node, new) in changes.nodes.iter().zip(changes.states) {
        let node = usize::from(*node);
        states[node] = raised_state(states[node], *new);
    }
}

// The first node that the evaluated step changes, or the number of nodes where it changes none: no Option, since the definition has that number
// and a step's DONE answers just that.
pub fn first_changed(states: &[u8], work: &[u16]) -> u32
    requires { (length states.now ≤ length work.now) × (length states.now ≤ most_nodes) }
    ensures { result ≡ first_changed states.now work.now }
{
    let next = &work[..states.len()];
    let first = states
        .iter()
        .zip(next)
        .position(|(state, next)| u16::from(*state) != *next);
    first.unwrap_or(states.len()) as u32
}

// How many nodes the evaluated step changes. A filter that is counted in place of the sum takes seven times as long.
pub fn differing(states: &[u8], work: &[u16]) -> u32
    requires { (length states.now ≤ length work.now) × (length states.now ≤ most_nodes) }
    ensures { result ≡ altered states.now work.now }
{
    states
        .iter()
        .zip(work)
        .map(|(state, next)| u32::from(u16::from(*state) != *next))
        .sum()
}

// The evaluated step takes effect.
pub fn store(states: &mut [u8], work: &[u16])
    requires { (length states.old ≤ length work.now) × Bytes (length states.old) work.now }
    ensures { states.new ≡ tab (length states.old) (at work.now) }
{
    for (node, state) in states.iter_mut().enumerate() {
        *state = work[node] as u8;
    }
}
