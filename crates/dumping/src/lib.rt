// Unit runs whose dump is measured, or written as they go, on tables that were checked.
#![tactic(auto)]

ghost use Rattle.std.specs.Prelude.{◌≤◌, ◌≡◌, length};
ghost use Rattle.model.specs.Bounds.{highest_limit};
ghost use Rattle.model.specs.Lent.{lent, asked};
ghost use Rattle.model.specs.Net.{nodes, step};
ghost use Rattle.model.specs.Run.{settle, unit_steps};
ghost use Rattle.basis.specs.Sound.{Checked, Named};
ghost use Rattle.basis.specs.Steps.{rule_one};
ghost use Rattle.runs.specs.Results.{EndedAs};
ghost use Rattle.waves.specs.Dump.{unit_dump};
ghost use Rattle.lettering.specs.Writing.{Fits, HasRoom, Writes};
ghost use Rattle.dumping.specs.Runs.{blocks, Measured, Shown};

use lettering::Writer;
use model::{ChangeList, MOST_NODES, Network};
use runs::{Moving, limit_of};

// How a run ended, as `runs` has it, and the place after what was written.
#[derive(Clone, Copy)]
pub struct Written {
    pub ran: Result<u32, Moving>,
    pub end: usize,
}

// Whether the room holds the blocks of the steps until settled, at most `limit` of them. It stops at the first that it does not hold.
fn steps_fit(net: &Network, states: &mut [u8], limit: u32, work: &mut [u16], room: usize) -> bool
    requires { Checked (lent net.now) states.old (length work.old) × (limit ≤ highest_limit) }
    ensures { let next = step (lent net.now) in
        Measured (rule_one (lent net.now)) room (blocks next states.old (settle next limit 0 states.old)) work.old result work.new }
{
    // The loop of `runs::settle`, with a block in each turn. Settle with a closure would need clauses for what each call leaves, longer than this.
    let mut count = 0;
    let mut free = room;
    loop {
        stepper::evaluate(net, states, work);
        let place = cells::first_changed(states, work);
        if place == states.len() as u32 || count == limit {
            return true;
        }
        // By `as`, here and below: std has no `From` of a u32 for usize.
        let block = blocks::step_length(count as usize + 1, states, work);
        if free < block {
            return false;
        }
        cells::store(states, work);
        free -= block;
        count += 1;
    }
}

// Steps until settled, at most `limit` of them, a block for each. The step that alters nothing has none.
fn write_steps(
    net: &Network,
    states: &mut [u8],
    limit: u32,
    work: &mut [u16],
    out: &mut Writer,
) -> Result<u32, Moving>
    requires { let next = step (lent net.now) in
        Checked (lent net.now) states.old (length work.old) × (limit ≤ highest_limit)
        × HasRoom out.old (blocks next states.old (settle next limit 0 states.old)) }
    ensures ended { let run = settle (step (lent net.now)) limit 0 states.old in
        EndedAs (rule_one (lent net.now)) run work.old result states.new work.new }
    ensures wrote { let next = step (lent net.now) in
        Writes out.old (blocks next states.old (settle next limit 0 states.old)) out.new }
{
    // The loop of `runs::settle`, as above.
    let mut count = 0;
    loop {
        stepper::evaluate(net, states, work);
        let place = cells::first_changed(states, work);
        if place == states.len() as u32 {
            return Ok(count);
        }
        if count == limit {
            return Err(Moving { place, count });
        }
        blocks::put_step(out, count as usize + 1, states, work);
        cells::store(states, work);
        count += 1;
    }
}

// Whether the room holds the dump of a unit run. The states are not touched.
pub fn run_fits(
    net: &Network,
    states: &[u8],
    changes: &ChangeList,
    limit: u32,
    work: &mut [u16],
    room: usize,
) -> bool
    requires { let net = lent net.now in
        Checked net states.now (length work.old) × Named (asked changes.now) (nodes net) × (limit ≤ highest_limit) }
    ensures { let net = lent net.now in
        Measured (rule_one net) room (unit_dump (step net) states.now (asked changes.now) limit) work.old result work.new }
{
    let mut area = [0u8; MOST_NODES];
    let trial = &mut area[..states.len()];
    trial.copy_from_slice(states);
    cells::enter(trial, changes);
    let front = blocks::front_length(trial);
    room >= front && steps_fit(net, trial, limit_of(limit), work, room - front)
}

// A unit run with its dump: the changes are entered, the header and time 0 are written, then steps follow.
pub fn write_run(
    net: &Network,
    states: &mut [u8],
    changes: &ChangeList,
    limit: u32,
    work: &mut [u16],
    out: &mut [u8],
) -> Written
    requires { let net = lent net.now in
        Checked net states.old (length work.old) × Named (asked changes.now) (nodes net) × (limit ≤ highest_limit)
        × Fits out.old 0 (unit_dump (step net) states.old (asked changes.now) limit) }
    ensures { let next = step (lent net.now) in
        let run = unit_steps next states.old (asked changes.now) limit in
        let dump = unit_dump next states.old (asked changes.now) limit in
        Shown (rule_one (lent net.now)) run dump work.old out.old 0 result.ran result.end states.new work.new out.new }
{
    cells::enter(states, changes);
    let mut writer = Writer { out, place: 0 };
    blocks::put_header(&mut writer, states.len());
    blocks::put_start(&mut writer, states);
    let ran = write_steps(net, states, limit_of(limit), work, &mut writer);
    Written {
        ran,
        end: writer.place,
    }
}
