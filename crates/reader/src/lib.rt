// The entries of the text: a text read into lent tables, the name of a node as a part of the text, and all names at once. Each says in its
// contract what it answers and what it leaves in each table that it may write, on every input. A text is read into tables of the call's own
// and handed over when it is taken, so that a refusal has touched nothing.
#![tactic(auto)]

ghost use Rattle.std.specs.Prelude.{◌≤◌, ◌≡◌, length};
ghost use Rattle.model.specs.Net.{net_of};
ghost use Rattle.basis.specs.Sound.{Sized};
ghost use Rattle.text.specs.Bytes.{part};
ghost use Rattle.text.specs.Netlist.{reading};
ghost use Rattle.text.specs.Reading.{read_by, read_into, read_outcome, name_part, listed_by, names_outcome};

use devices::Netlist;
use handing::EMPTY_PART;
use model::{Answer, MOST_BYTES, MOST_NODES, MOST_TRANSISTORS, Network};
use text::Span;

// Reads a text that is not too long into tables within the bounds.
#[tactic(auto, unfolding(text::specs::Reading::read_into))]
fn read_sized(
    text: &[u8],
    kinds: &mut [u8],
    types: &mut [u8],
    gates: &mut [u16],
    sources: &mut [u16],
    drains: &mut [u16],
) -> Answer
    requires { (length text.now ≤ 65535) × Sized (net_of kinds.old types.old gates.old sources.old drains.old) }
    ensures { let net = net_of kinds.old types.old gates.old sources.old drains.old in
        read_by result (net_of kinds.new types.new gates.new sources.new drains.new) ≡ read_into (reading text.now (length kinds.old) (length types.old)) net }
{
    let mut list = Netlist::new(text);
    let ended = list.read_lines(kinds.len(), types.len());
    handing::hand_over(kinds, types, gates, sources, drains, &list, ended)
}

// Reads a text into lent tables, whose lengths are the room for its nodes and transistors. A refusal leaves them as they came. The tables are
// lent one by one, as the C interface has them, here and where they are handed on.
#[tactic(auto, unfolding(text::specs::Reading::read_outcome, text::specs::Reading::read_sizes))]
pub fn read_sim(
    text: &[u8],
    kinds: &mut [u8],
    types: &mut [u8],
    gates: &mut [u16],
    sources: &mut [u16],
    drains: &mut [u16],
) -> Answer
    ensures { read_by result (net_of kinds.new types.new gates.new sources.new drains.new) ≡ read_outcome text.now (net_of kinds.old types.old gates.old sources.old drains.old) }
{
    let lent = Network {
        kinds,
        types,
        gates,
        sources,
        drains,
    };
    if text.len() > MOST_BYTES || sizes::wrong_check_sizes(&lent) {
        return Answer::Size;
    }
    read_sized(text, kinds, types, gates, sources, drains)
}

// Where the name of a node first appears in a text, and its size: the empty part for an unused number, and for a text that no tables could
// take.
#[tactic(auto, unfolding(text::specs::Reading::name_part, text::specs::Reading::full_reading))]
pub fn node_span(text: &[u8], number: usize) -> Span
    ensures { result ≡ name_part text.now number }
{
    if text.len() > MOST_BYTES {
        return EMPTY_PART;
    }
    let mut list = Netlist::new(text);
    let ended = list.read_lines(MOST_NODES, MOST_TRANSISTORS);
    handing::span_in(&list, ended, number)
}

// The name of a node, as the part of the text where it first appears.
pub fn node_name(text: &[u8], number: usize) -> &[u8]
    ensures { result.now ≡ part text.now (name_part text.now number) }
{
    node_span(text, number).of(text)
}

// Lists where the names of all nodes first appear in a text, and their sizes, by number. A refusal leaves the tables as they came.
#[tactic(auto, unfolding(text::specs::Reading::names_outcome, text::specs::Reading::full_reading, text::specs::Reading::list_into))]
pub fn node_names(text: &[u8], starts: &mut [u16], sizes: &mut [u8]) -> Answer
    ensures { listed_by result starts.new sizes.new ≡ names_outcome text.now starts.old sizes.old }
{
    if text.len() > MOST_BYTES {
        return Answer::Size;
    }
    let mut list = Netlist::new(text);
    let ended = list.read_lines(MOST_NODES, MOST_TRANSISTORS);
    handing::list_over(starts, sizes, &list, ended)
}
