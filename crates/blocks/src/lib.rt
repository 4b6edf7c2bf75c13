// The lines and blocks of a dump, the header, time 0 and one step: how long they are, and written to an output that has room for them.
// States and the cells of their next states are lent apart, and stay two.
#![tactic(auto, using(crate::proofs::Lines::lengths))]

ghost use Rattle.std.specs.Prelude.{◌+◌, ◌≤◌, ◌<◌, ◌≡◌, not, cond, [], length, eqb};
ghost use Rattle.model.specs.Bounds.{most_nodes, highest_limit};
ghost use Rattle.model.specs.Places.{at};
ghost use Rattle.waves.specs.Dump.{each, code, letter, wire_line, value_line, header, start_block, time_line, change_line, step_block};
ghost use Rattle.lettering.specs.Writing.{HasRoom, Writes};

use lettering::{Writer, code_length, decimal_length};

// How long the header and time 0 are together: a wire and a value for each node.
pub fn front_length(states: &[u8]) -> usize
    requires { length states.now ≤ most_nodes }
    ensures { result ≡ length (header (length states.now)) + length (start_block states.now) }
{
    let mut size = 97;
    for node in 0..states.len() {
        size += 22 + 2 * code_length(node) + decimal_length(node);
    }
    size
}

// How long the line of a node is in a step: none where its state stays.
fn change_length(node: usize, old: u8, new: u16) -> usize
    requires { node < most_nodes }
    ensures { result ≡ cond (not (eqb old new)) (length (code node) + 2) 0 }
{
    if u16::from(old) == new {
        0
    } else {
        code_length(node) + 2
    }
}

fn changes_length(states: &[u8], next: &[u16]) -> usize
    requires { (length states.now ≤ length next.now) × (length states.now ≤ most_nodes) }
    ensures { result ≡ length (each (length states.now) (change_line states.now next.now)) }
{
    let mut size = 0;
    for (node, old) in states.iter().enumerate() {
        size += change_length(node, *old, next[node]);
    }
    size
}

// How long the block of a step is, from the states before it and the next ones.
pub fn step_length(time: usize, states: &[u8], next: &[u16]) -> usize
    requires { (time ≤ highest_limit) × (length states.now ≤ length next.now) × (length states.now ≤ most_nodes) }
    ensures { result ≡ length (step_block time states.now next.now) }
{
    decimal_length(time) + 2 + changes_length(states, next)
}

fn put_wire(out: &mut Writer, node: usize)
    requires { (node < most_nodes) × HasRoom out.old (wire_line node) }
    ensures { Writes out.old (wire_line node) out.new }
{
    out.text(b"$var wire 1 ");
    out.code(node);
    out.text(b" n");
    out.decimal(node);
    out.text(b" $end\n");
}

// A letter for a state, which is a number of a lent table.
fn letter_of(state: u16) -> u8
    ensures { result ≡ letter state }
{
    match state {
        0 => b'0',
        1 => b'1',
        _ => b'x',
    }
}

fn put_value(out: &mut Writer, node: usize, state: u16)
    requires { (node < most_nodes) × HasRoom out.old (value_line node state) }
    ensures { Writes out.old (value_line node state) out.new }
{
    out.byte(letter_of(state));
    out.code(node);
    out.byte(b'\n');
}

// A line where the state changes, else nothing.
fn put_change(out: &mut Writer, node: usize, old: u8, new: u16)
    requires { let line = cond (not (eqb old new)) (value_line node new) [] in
        (node < most_nodes) × HasRoom out.old line }
    ensures { let line = cond (not (eqb old new)) (value_line node new) [] in
        Writes out.old line out.new }
{
    if u16::from(old) != new {
        put_value(out, node, new);
    }
}

// What stands before time 0, for so many nodes.
pub fn put_header(out: &mut Writer, count: usize)
    requires { (count ≤ most_nodes) × HasRoom out.old (header count) }
    ensures { Writes out.old (header count) out.new }
{
    out.text(b"$timescale 1 ns $end\n$scope module mos $end\n");
    for node in 0..count {
        put_wire(out, node);
    }
    out.text(b"$upscope $end\n$enddefinitions $end\n");
}

// Time 0: all states.
pub fn put_start(out: &mut Writer, states: &[u8])
    requires { (length states.now ≤ most_nodes) × HasRoom out.old (start_block states.now) }
    ensures { Writes out.old (start_block states.now) out.new }
{
    out.text(b"#0\n$dumpvars\n");
    for (node, state) in states.iter().enumerate() {
        put_value(out, node, u16::from(*state));
    }
    out.text(b"$end\n");
}

fn put_time(out: &mut Writer, time: usize)
    requires { HasRoom out.old (time_line time) }
    ensures { Writes out.old (time_line time) out.new }
{
    out.byte(b'#');
    out.decimal(time);
    out.byte(b'\n');
}

// One step: its time, and the nodes that it changes.
pub fn put_step(out: &mut Writer, time: usize, states: &[u8], next: &[u16])
    requires { (length states.now ≤ length next.now) × (length states.now ≤ most_nodes)
        × HasRoom out.old (step_block time states.now next.now) }
    ensures { Writes out.old (step_block time states.now next.now) out.new }
{
    put_time(out, time);
    for (node, old) in states.iter().enumerate() {
        put_change(out, node, *old, next[node]);
    }
}
