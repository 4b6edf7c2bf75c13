// Both sides of each bound, through the library's entries. A line a call: the entry and what is lent, in numbers, as the title above it says,
// then answer, place, first count and second count. First the lengths, at full size, then what the tables hold, then the default limit. The rows of
// each bound stand below the line that says what they show.
#![tactic(auto)]

ghost use Rattle.std.specs.Prelude.{◌≤◌};

use bench::{G, I, LargeNetwork, N, P, Size, TD, V};
use lines::Row;
use model::{Answer, ChangeList};
use std::io;
use trials::Entry;
use trials::Entry::{Check, Reset, Step, Ternary, Unit};

// What is lent with a network: so many states, all alike; changes of so many first nodes to one new state; a limit; so many work cells.
#[derive(Drop)]
struct Lent {
    states: usize,
    state: u8,
    changes: usize,
    new: u8,
    limit: u32,
    cells: usize,
    ghost fits: { (states ≤ 4097) × (changes ≤ 4097) × (cells ≤ 32769) },
}

// Calls an entry with the front of a network and what is lent with it.
fn call(entry: Entry, net: &LargeNetwork, size: Size, lent: &Lent) -> Answer {
    let mut states = [lent.state; 4097];
    let nodes = bench::nodes_from(0);
    let news = [lent.new; 4097];
    let changes = ChangeList {
        nodes: &nodes[..lent.changes],
        states: &news[..lent.changes],
    };
    let mut work = [9; 32769];
    entry.call(
        &net.front(size),
        &mut states[..lent.states],
        &changes,
        lent.limit,
        &mut work[..lent.cells],
    )
}

// A row of lengths, of a ring of closed transistors at 0, with changes to 1.
#[derive(Drop)]
struct Lengths {
    entry: Entry,
    kind: u8,
    size: Size,
    lent: Lent,
}

impl Lengths {
    // A row on one line: nodes, states, types, ends, changes, work cells.
    fn new(
        entry: Entry,
        kind: u8,
        nodes: usize,
        states: usize,
        types: usize,
        ends: usize,
        changes: usize,
        cells: usize,
    ) -> Self
        requires { (nodes ≤ 4097) × (states ≤ 4097) × (types ≤ 8193) × (ends ≤ 8193) × (changes ≤ 4097) × (cells ≤ 32769) }
    {
        Lengths {
            entry,
            kind,
            size: Size { nodes, types, ends },
            lent: Lent {
                states,
                state: 0,
                changes,
                new: 1,
                limit: 0,
                cells,
            },
        }
    }

    // Calls the entry, and prints the line.
    fn show(&self, rt: &impl Print) -> io::Result<()> {
        let Lengths {
            entry,
            kind,
            size,
            lent,
        } = self;
        let net = bench::ring(*kind, TD, 0);
        let answer = Row(call(*entry, &net, *size, lent));
        println!(rt;
            "{entry} {kind} {} {} {} {} {} {}: {answer}",
            size.nodes, lent.states, size.types, size.ends, lent.changes, lent.cells
        )
    }
}

// A row of contents, of a ring of three nodes and one transistor.
#[derive(Drop)]
struct Contents {
    entry: Entry,
    kind: u8,
    ty: u8,
    gate: u16,
    lent: Lent,
}

impl Contents {
    // A row on one line: the kind of the nodes, the type and gate of the transistor, the states, how many are changed, and to what, the limit.
    fn new(
        entry: Entry,
        kind: u8,
        ty: u8,
        gate: u16,
        state: u8,
        changes: usize,
        new: u8,
        limit: u32,
    ) -> Self
        requires { changes ≤ 4097 }
    {
        Contents {
            entry,
            kind,
            ty,
            gate,
            lent: Lent {
                states: 3,
                state,
                changes,
                new,
                limit,
                cells: 14,
            },
        }
    }

    // Calls the entry, and prints the line.
    fn show(&self, rt: &impl Print) -> io::Result<()> {
        let Contents {
            entry,
            kind,
            ty,
            gate,
            lent,
        } = self;
        let size = Size {
            nodes: 3,
            types: 1,
            ends: 1,
        };
        let net = bench::ring(*kind, *ty, *gate);
        let answer = Row(call(*entry, &net, size, lent));
        println!(rt;
            "{entry} {kind} {ty} {gate} {} {} {} {}: {answer}",
            lent.state, lent.changes, lent.new, lent.limit
        )
    }
}

// A row of a unit run of so many inverters, with its limit.
#[derive(Drop)]
struct Stages {
    stages: usize,
    limit: u32,
    ghost fits: { stages ≤ 1001 },
}

impl Stages {
    fn new(stages: usize, limit: u32) -> Self
        requires { stages ≤ 1001 }
    {
        Stages { stages, limit }
    }

    // Makes the run, from 0 everywhere, and prints the line: the inverter at stage k has its last state after k steps and not before.
    fn show(&self, rt: &impl Print) -> io::Result<()> {
        let Stages { stages, limit } = *self;
        let nodes = stages + 2;
        let size = Size {
            nodes,
            types: stages,
            ends: stages,
        };
        let lent = Lent {
            states: nodes,
            state: 0,
            changes: 0,
            new: 0,
            limit,
            cells: 4 * nodes + 2 * stages,
        };
        let answer = Row(call(Unit, &bench::inverters(), size, &lent));
        println!(rt; "{Unit} {stages} {limit}: {answer}")
    }
}

// 0 nodes are too few, 4,097 too many; 8,193 transistors are too many; the tables of transistors have one length, kinds and states another.
fn lengths_of_tables(rt: &impl Print) -> io::Result<()> {
    for row in [
        Lengths::new(Check, N, 0, 0, 0, 0, 0, 0),
        Lengths::new(Check, N, 1, 0, 0, 0, 0, 0),
        Lengths::new(Check, N, 4096, 0, 8192, 8192, 0, 0),
        Lengths::new(Check, N, 4097, 0, 0, 0, 0, 0),
        Lengths::new(Check, N, 4096, 0, 8193, 8193, 0, 0),
        Lengths::new(Check, N, 4096, 0, 8193, 8192, 0, 0),
        Lengths::new(Reset, N, 4096, 4096, 0, 0, 0, 0),
        Lengths::new(Reset, N, 4097, 4097, 0, 0, 0, 0),
        Lengths::new(Reset, N, 4097, 4096, 0, 0, 0, 0),
    ] {
        row.show(rt)?;
    }
    Ok(())
}

// A step and the runs at full size need 32,768 work cells, and so do 4,096 changes of as many inputs; 4,097 changes are too many. Inputs alone, and
// rails alone, settle with no step.
fn lengths_of_runs(rt: &impl Print) -> io::Result<()> {
    for row in [
        Lengths::new(Step, N, 4096, 4096, 8192, 8192, 0, 32767),
        Lengths::new(Step, N, 4096, 4096, 8192, 8192, 0, 32768),
        Lengths::new(Unit, N, 4096, 4096, 8192, 8192, 1, 32768),
        Lengths::new(Ternary, N, 4096, 4096, 8192, 8192, 1, 32769),
        Lengths::new(Unit, I, 4096, 4096, 8192, 8192, 4096, 32768),
        Lengths::new(Unit, I, 4096, 4096, 8192, 8192, 4097, 32768),
        Lengths::new(Unit, G, 4096, 4096, 8192, 8192, 0, 32768),
        Lengths::new(Unit, V, 4096, 4096, 8192, 8192, 4096, 32768),
        Lengths::new(Step, N, 3, 3, 1, 1, 0, 13),
        Lengths::new(Step, N, 3, 3, 1, 1, 0, 14),
    ] {
        row.show(rt)?;
    }
    Ok(())
}

// Kinds end at 4, types and states at 2, node numbers below the node count; reset takes any state.
fn contents_of_tables(rt: &impl Print) -> io::Result<()> {
    for row in [
        Contents::new(Check, 4, 0, 0, 0, 0, 0, 0),
        Contents::new(Check, 5, 0, 0, 0, 0, 0, 0),
        Contents::new(Reset, 4, 0, 0, 0, 0, 0, 0),
        Contents::new(Reset, 5, 0, 0, 0, 0, 0, 0),
        Contents::new(Check, N, 2, 0, 0, 0, 0, 0),
        Contents::new(Check, N, 3, 0, 0, 0, 0, 0),
        Contents::new(Check, N, 0, 2, 0, 0, 0, 0),
        Contents::new(Check, N, 0, 3, 0, 0, 0, 0),
        Contents::new(Check, N, 0, 65535, 0, 0, 0, 0),
        Contents::new(Reset, N, 0, 0, 255, 0, 0, 0),
        Contents::new(Step, N, 0, 0, 2, 0, 0, 0),
        Contents::new(Step, N, 0, 0, 3, 0, 0, 0),
    ] {
        row.show(rt)?;
    }
    Ok(())
}

// A step's place is the first node that it changes, and where it changes none the number of nodes: pullups at 0, and at 1.
fn first_changed(rt: &impl Print) -> io::Result<()> {
    for row in [
        Contents::new(Step, P, 0, 0, 0, 0, 0, 0),
        Contents::new(Step, P, 0, 0, 1, 0, 0, 0),
    ] {
        row.show(rt)?;
    }
    Ok(())
}

// The limit ends at 10,000, and a run may end exactly at its limit. A ternary run needs a settled start: a pullup at 0 is none. Of the changes,
// the first is of ground, also to the state that it has, the second of no input, the fourth of no node; new states end at 2.
fn contents_of_runs(rt: &impl Print) -> io::Result<()> {
    for row in [
        Contents::new(Unit, P, 0, 0, 0, 0, 0, 10000),
        Contents::new(Unit, P, 0, 0, 0, 0, 0, 10001),
        Contents::new(Unit, P, 0, 0, 0, 0, 0, 1),
        Contents::new(Ternary, P, 0, 0, 0, 0, 0, 0),
        Contents::new(Ternary, P, 0, 0, 1, 0, 0, 0),
        Contents::new(Unit, N, 0, 0, 0, 1, 0, 1),
        Contents::new(Unit, N, 0, 0, 0, 2, 0, 1),
        Contents::new(Unit, I, 0, 0, 0, 3, 1, 1),
        Contents::new(Unit, V, 0, 0, 0, 3, 1, 1),
        Contents::new(Unit, I, 0, 0, 0, 4, 1, 1),
        Contents::new(Unit, I, 0, 0, 0, 1, 2, 1),
        Contents::new(Unit, I, 0, 0, 0, 1, 3, 1),
    ] {
        row.show(rt)?;
    }
    Ok(())
}

// A limit of 0 stands for 1,000 steps, a limit of 100 for 100; a row of as many stages as its limit settles. A longer one is still moving from
// the stage on that comes next.
fn default_limit(rt: &impl Print) -> io::Result<()> {
    for row in [
        Stages::new(300, 0),
        Stages::new(300, 100),
        Stages::new(300, 299),
        Stages::new(300, 300),
        Stages::new(1000, 0),
        Stages::new(1001, 0),
        Stages::new(1001, 1001),
    ] {
        row.show(rt)?;
    }
    Ok(())
}

fn main(rt: HostRuntime) -> io::Result<()> {
    println!(rt; "entry kind nodes states types ends changes cells: answer place count count")?;
    lengths_of_tables(&rt)?;
    lengths_of_runs(&rt)?;
    println!(rt; "entry kind type gate state changes new limit: answer place count count")?;
    contents_of_tables(&rt)?;
    first_changed(&rt)?;
    contents_of_runs(&rt)?;
    println!(rt; "entry stages limit: answer place count count")?;
    default_limit(&rt)
}
