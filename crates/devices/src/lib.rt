// The network that the lines of a text add up to, in tables with room: a pullup, or one more transistor, for each device; and the lines in turn,
// up to the first that offends.
#![tactic(auto)]

ghost use Rattle.std.specs.Prelude.{◌+◌, ◌≤◌, ◌<◌, ◌≡◌, length, IfErr, IfOk};
ghost use Rattle.model.specs.Places.{at};
ghost use Rattle.model.specs.Net.{transistors};
ghost use Rattle.model.specs.Lent.{lent};
ghost use Rattle.text.specs.Netlist.{kind_of, rail, pulls, joined, device, added, offends, number_of, named, nodes_of, nothing, reading};
ghost use Rattle.text.specs.Promised.{Fits};
ghost use Rattle.textlaws.proofs.Lines.{AllFit, LineFits};
ghost use Rattle.names.specs.Known.{known};
ghost use Rattle.devices.specs.Tables.{so_far, with_net, with_nodes, Level};
ghost use Rattle.devices.specs.Told.{told};

use model::{GROUND, Network, POWER, PULLUP};
use names::{KnownNames, NODE_CELLS};
use std::marker::Model;
use text::{DeviceType, Line, Names, Span};

// The cells for transistors: the most transistors, and one more, since a device is entered before it is counted.
pub const WIRE_CELLS: usize = 8193;

// The line of a text that offends, counted from 0.
#[derive(Clone, Copy)]
pub struct BadLine {
    pub line: u32,
}

// What was read of a text. A clause sees the text and the netlist so far. Arrays with counts, since the library has no heap.
#[derive(Drop)]
pub struct Netlist<'t> {
    names: KnownNames<'t>,
    kinds: [u8; NODE_CELLS],
    types: [u8; WIRE_CELLS],
    gates: [u16; WIRE_CELLS],
    sources: [u16; WIRE_CELLS],
    drains: [u16; WIRE_CELLS],
    transistors: u16,
}

impl<'t> Model for Netlist<'t> {
    ghost use Rattle.model.specs.Net.{net_of};
    ghost use Rattle.devices.specs.Tables.{SoFar, in_tables, Roomed};

    ghost Value = { SoFar };

    ghost view = { λ a. in_tables a.names (net_of a.kinds a.types a.gates a.sources a.drains) a.transistors };

    ghost invariant = { λ a. Roomed a.names (net_of a.kinds a.types a.gates a.sources a.drains) a.transistors };
}

// Vdd is power and Gnd ground; others are normal.
#[tactic(auto, using(crate::proofs::Spelling::equal_same), unfolding(text::specs::Netlist::kind_of))]
fn kind_of(name: &[u8]) -> u8
    ensures { result ≡ kind_of name.now }
{
    if name == b"Vdd".as_slice() {
        POWER
    } else if name == b"Gnd".as_slice() {
        GROUND
    } else {
        0
    }
}

fn is_rail(kind: u8) -> bool
    ensures { result ≡ rail kind }
{
    kind == GROUND || kind == POWER
}

impl<'t> Netlist<'t> {
    // Of a text of which nothing was read.
    pub fn new(text: &'t [u8]) -> Self
        requires { length text.now ≤ 65535 }
        ensures { result ≡ so_far text.now nothing }
    {
        Netlist {
            names: KnownNames::new(text),
            kinds: [0; NODE_CELLS],
            types: [0; WIRE_CELLS],
            gates: [0; WIRE_CELLS],
            sources: [0; WIRE_CELLS],
            drains: [0; WIRE_CELLS],
            transistors: 0,
        }
    }

    pub fn names(&self) -> &KnownNames<'t>
        ensures { result.now ≡ known self.now.text self.now.list.names }
    {
        &self.names
    }

    // How many transistors were read.
    pub fn transistors(&self) -> usize
        ensures count { result ≡ transistors self.now.list.net }
        ensures few { result ≤ WIRE_CELLS }
    {
        usize::from(self.transistors)
    }

    pub fn network(&self) -> Network<'_>
        ensures net { lent result ≡ self.now.list.net }
        ensures level { Level self.now.list }
    {
        let nodes = self.names.count();
        let transistors = self.transistors();
        Network {
            kinds: &self.kinds[..nodes],
            types: &self.types[..transistors],
            gates: &self.gates[..transistors],
            sources: &self.sources[..transistors],
            drains: &self.drains[..transistors],
        }
    }

    // Numbers a name, with its kind if it is a new one.
    #[tactic(auto, unfolding(text::specs::Netlist::named))]
    fn number(&mut self, name: Span) -> usize
        requires room { length self.old.list.names < NODE_CELLS }
        requires fits { Fits (length self.old.text) name }
        ensures number { result ≡ number_of self.old.text self.old.list.names name }
        ensures entered { self.new ≡ with_nodes self.old (named self.old.text (nodes_of self.old.list) name) }
        ensures counted { let known = length self.old.list.names in let now = length self.new.list.names in (result < now) × (known ≤ now) × (now ≤ known + 1) }
    {
        let known = self.names.count();
        let number = self.names.number(name);
        if number == known {
            self.kinds[number] = kind_of(name.of(self.names.text()));
        }
        number
    }

    // The kind of a node.
    fn kind(&self, node: usize) -> u8
        requires { node < length self.now.list.names }
        ensures { result ≡ at self.now.list.net.kinds node }
    {
        self.kinds[node]
    }

    // Whether a device makes the node at its gate a pullup: it has one end at Vdd and its gate at the other, which is neither rail.
    #[tactic(auto, unfolding(text::specs::Netlist::pulls))]
    fn pulls_up(&self, t: DeviceType, gate: usize, source: usize, drain: usize) -> bool
        requires { let nodes = length self.now.list.names in (gate < nodes) × (source < nodes) × (drain < nodes) }
        ensures { result ≡ pulls t gate source drain self.now.list.net.kinds }
    {
        matches!(t, DeviceType::D)
            && (self.kind(source) == POWER && gate == drain
                || self.kind(drain) == POWER && gate == source)
            && !is_rail(self.kind(gate))
    }

    // Enters a device between numbered nodes.
    fn join(&mut self, t: DeviceType, gate: usize, source: usize, drain: usize)
        requires room { transistors self.old.list.net < WIRE_CELLS }
        requires numbered { let nodes = length self.old.list.names in (gate < nodes) × (source < nodes) × (drain < nodes) }
        ensures { self.new ≡ with_net self.old (joined t gate source drain self.old.list.net) }
    {
        if self.pulls_up(t, gate, source, drain) {
            self.kinds[gate] = PULLUP;
            return;
        }
        let number = self.transistors();
        self.types[number] = u8::from(t);
        self.gates[number] = gate as u16;
        self.sources[number] = source as u16;
        self.drains[number] = drain as u16;
        self.transistors += 1;
    }

    // Enters a device by its names: the gate is numbered before the source before the drain.
    #[tactic(auto, unfolding(text::specs::Netlist::device))]
    fn add_device(&mut self, t: DeviceType, names: Names)
        requires room { (length self.old.list.names ≤ 4096) × (transistors self.old.list.net ≤ 8192) }
        requires fits { AllFit (length self.old.text) names }
        ensures { self.new ≡ so_far self.old.text (device self.old.text t names self.old.list) }
    {
        let gate = self.number(names.gate);
        let source = self.number(names.source);
        let drain = self.number(names.drain);
        self.join(t, gate, source, drain);
    }

    // Enters what a line adds.
    #[tactic(auto, unfolding(text::specs::Netlist::added, textlaws::proofs::Lines::LineFits))]
    fn add_line(&mut self, line: Line)
        requires room { (length self.old.list.names ≤ 4096) × (transistors self.old.list.net ≤ 8192) }
        requires fits { LineFits (length self.old.text) line }
        ensures { self.new ≡ so_far self.old.text (added self.old.text line self.old.list) }
    {
        match line {
            Line::Device(t, names) => self.add_device(t, names),
            Line::Skip | Line::Bad => {}
        }
    }

    // Whether a line offends: it is bad, or there is no room for what is there with it.
    #[tactic(auto, unfolding(text::specs::Netlist::offends))]
    fn offends(&self, line: Line, node_room: usize, transistor_room: usize) -> bool
        ensures { result ≡ offends node_room transistor_room line self.now.list }
    {
        matches!(line, Line::Bad)
            || node_room < self.names.count()
            || transistor_room < self.transistors()
    }

    // Forgets what was read. The tables stay as they are: only their fronts, up to the counts, are part of it.
    fn clear(&mut self)
        ensures { self.new ≡ so_far self.old.text nothing }
    {
        self.names.clear();
        self.transistors = 0;
    }

    // Reads the text from its beginning, up to the first line that offends.
    #[tactic(auto, using(crate::proofs::Midway::midway_start))]
    pub fn read_lines(&mut self, node_room: usize, transistor_room: usize) -> Result<(), BadLine>
        requires { (node_room ≤ 4096) × (transistor_room ≤ 8192) }
        ensures same_text { self.new.text ≡ self.old.text }
        ensures read { told result self.new.list ≡ reading self.old.text node_room transistor_room }
        ensures roomy { IfOk result (λ _. (length self.new.list.names ≤ node_room) × (transistors self.new.list.net ≤ transistor_room)) }
        ensures small { IfErr result (λ bad. bad.line ≤ 65535) }
    {
        self.clear();
        let text = self.names.text();
        // A line begins where the one before ends: no `for` goes over them, and they are counted beside it.
        let mut from = 0;
        let mut line_number: u32 = 0;
        while from < text.len() {
            let line = scanner::line_at(text, from);
            self.add_line(line);
            if self.offends(line, node_room, transistor_room) {
                return Err(BadLine { line: line_number });
            }
            from = scanner::line_end(text, from, line) + 1;
            line_number += 1;
        }
        Ok(())
    }
}
