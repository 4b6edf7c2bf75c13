// What was read of a text is handed over to the lent tables: the network, the part that is a node's name, the names of all nodes. Each
// function is told how the reading ended; a refusal hands over nothing.
#![tactic(auto)]

ghost use Rattle.std.specs.Prelude.{◌≤◌, ◌≡◌, length, IfOk};
ghost use Rattle.model.specs.Net.{net_of, transistors};
ghost use Rattle.basis.specs.Sound.{Sized};
ghost use Rattle.text.specs.Reading.{counted, read_by, read_into, name_in, listed_by, list_into};
ghost use Rattle.devices.specs.Told.{told};

use devices::{BadLine, Netlist};
use model::Answer;
use text::Span;

// The name of an unused number: no Option, since the C interface answers such a number with the empty part.
pub const EMPTY_PART: Span = Span { start: 0, size: 0 };

// The answer to a text that is taken.
fn done(list: &Netlist<'_>) -> Answer
    ensures { result ≡ counted list.now.list }
{
    Answer::Done {
        place: 0,
        first: list.names().count() as u32,
        second: list.transistors() as u32,
    }
}

// What was read goes into the fronts of the lent tables; a refusal leaves them as they came.
#[tactic(auto, unfolding(text::specs::Reading::read_into, text::specs::Reading::over))]
pub fn hand_over(
    kinds: &mut [u8],
    types: &mut [u8],
    gates: &mut [u16],
    sources: &mut [u16],
    drains: &mut [u16],
    list: &Netlist<'_>,
    ended: Result<(), BadLine>,
) -> Answer
    requires sized { Sized (net_of kinds.old types.old gates.old sources.old drains.old) }
    requires room { IfOk ended (λ _. (length list.now.list.names ≤ length kinds.old) × (transistors list.now.list.net ≤ length types.old)) }
    ensures { let net = net_of kinds.old types.old gates.old sources.old drains.old in
        read_by result (net_of kinds.new types.new gates.new sources.new drains.new) ≡ read_into (told ended list.now.list) net }
{
    if let Err(bad) = ended {
        return Answer::Text(bad.line);
    }
    let read = list.network();
    kinds[..read.kinds.len()].copy_from_slice(read.kinds);
    types[..read.types.len()].copy_from_slice(read.types);
    gates[..read.gates.len()].copy_from_slice(read.gates);
    sources[..read.sources.len()].copy_from_slice(read.sources);
    drains[..read.drains.len()].copy_from_slice(read.drains);
    done(list)
}

// Where the name of a node first appears: the empty part for an unused number, and for a refusal.
pub fn span_in(list: &Netlist<'_>, ended: Result<(), BadLine>, number: usize) -> Span
    ensures { result ≡ name_in (told ended list.now.list) number }
{
    if ended.is_err() {
        return EMPTY_PART;
    }
    let names = list.names();
    if names.count() <= number {
        return EMPTY_PART;
    }
    names.span(number)
}

// The names go into the fronts of the lent tables, if these hold them all; a refusal leaves them as they came.
#[tactic(auto, unfolding(text::specs::Reading::list_into, text::specs::Reading::over))]
pub fn list_over(
    starts: &mut [u16],
    sizes: &mut [u8],
    list: &Netlist<'_>,
    ended: Result<(), BadLine>,
) -> Answer
    ensures { listed_by result starts.new sizes.new ≡ list_into (told ended list.now.list) starts.old sizes.old }
{
    let names = list.names();
    let count = names.count();
    match ended {
        Err(bad) => Answer::Text(bad.line),
        Ok(()) if starts.len() < count || sizes.len() < count => Answer::Size,
        Ok(()) => {
            starts[..count].copy_from_slice(names.starts());
            sizes[..count].copy_from_slice(names.sizes());
            done(list)
        }
    }
}
