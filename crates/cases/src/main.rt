// The case program: runs the bench set K1 to K14 through the library's entries and prints a line each: mark, answer, place, first count,
// second count, states from node 0. It reads nothing. Each case starts from a table of 256 nodes, all at X, sets the states that it names and
// lends the front of the table: a caller's table may be longer than what is lent of it.
#![tactic(auto)]

ghost use Rattle.std.specs.Prelude.{◌≤◌, length};

use bench::{FENCE, INV, LATCH, PASS, RING, SHORT, SPLIT};
use lines::{Row, States};
use model::{ChangeList, Network};
use std::io;
use trials::Entry;
use trials::Entry::{Ternary, Unit};

// The state that is not known: a byte of a lent table, as the C interface has it.
const X: u8 = 2;

// One case: the entry, its limit, where 0 stands for the default, the network, the states of its nodes, and the changes.
#[derive(Drop)]
struct Case<'a> {
    entry: Entry,
    limit: u32,
    net: Network<'a>,
    start: &'a [u8],
    changes: ChangeList<'a>,
    ghost fits: { length start.now ≤ 256 },
}

impl<'a> Case<'a> {
    // A case on one line; the changes are the nodes, then the state that each takes.
    fn new(
        entry: Entry,
        limit: u32,
        net: Network<'a>,
        start: &'a [u8],
        nodes: &'a [u16],
        states: &'a [u8],
    ) -> Self
        requires { length start.now ≤ 256 }
    {
        let changes = ChangeList { nodes, states };
        Case {
            entry,
            limit,
            net,
            start,
            changes,
        }
    }

    // Runs it, and prints its line.
    fn show(&self, rt: &impl Print, mark: usize) -> io::Result<()> {
        let mut table = [X; 256];
        let states = &mut table[..self.start.len()];
        states.copy_from_slice(self.start);
        let mut work = [0; 64];
        let answer = self
            .entry
            .call(&self.net, states, &self.changes, self.limit, &mut work);
        println!(rt; "K{mark} {} {}", Row(answer), States(states))
    }
}

fn main(rt: HostRuntime) -> io::Result<()> {
    let cases = [
        Case::new(Unit, 0, INV, &[0, X, X], &[1], &[1]),
        Case::new(Unit, 0, INV, &[0, 1, 0], &[1], &[X]),
        Case::new(Ternary, 0, INV, &[0, 1, 0], &[1], &[0]),
        Case::new(Unit, 0, PASS, &[0, 1, 0], &[0], &[1]),
        Case::new(Unit, 0, PASS, &[0, 1, 1], &[0], &[X]),
        Case::new(Unit, 4, RING, &[0, 0], &[], &[]),
        Case::new(Ternary, 0, RING, &[0, 0], &[], &[]),
        Case::new(Unit, 0, INV, &[0, X, X], &[1, 1], &[1, 1]),
        Case::new(Unit, 0, FENCE, &[X, 0, 1, 1], &[], &[]),
        Case::new(Unit, 0, SHORT, &[0, 1, 0], &[], &[]),
        Case::new(Unit, 0, SPLIT, &[1, 0, 0, 0], &[], &[]),
        Case::new(Unit, 0, LATCH, &[1, 0, 0], &[0, 1], &[0, 1]),
        Case::new(Ternary, 0, LATCH, &[1, 0, 0], &[0, 1], &[0, 1]),
        Case::new(Unit, 4, RING, &[0, X], &[], &[]),
    ];
    for (place, case) in cases.into_iter().enumerate() {
        case.show(&rt, place + 1)?;
    }
    Ok(())
}
