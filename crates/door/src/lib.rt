// The door to C: the entries under C names, each with its four numbers written through `answer`. include/twistdory.h is its manual.
// A slice passes as a pointer and a length in elements. C lends each table by itself, so only here do they stand side by side.
#![tactic(auto)]

ghost use Rattle.std.specs.Prelude.{◌≡◌, [], ◌∷◌};
ghost use Rattle.model.specs.Run.{changes_of};
ghost use Rattle.model.specs.Net.{net_of};
ghost use Rattle.model.specs.Answer.{row};
ghost use Rattle.model.specs.Entries.{check_answer, reset_outcome, step_outcome, unit_outcome, ternary_outcome};
ghost use Rattle.text.specs.Reading.{read_outcome, name_part, names_outcome};
ghost use Rattle.door.specs.Told.{Told, ToldRead, ToldNames};

use model::{ChangeList, Network};

#[unsafe(no_mangle)]
pub extern "C" fn twistdory_check(
    kinds: &[u8],
    types: &[u8],
    gates: &[u16],
    sources: &[u16],
    drains: &[u16],
    answer: &mut [u32; 4],
)
    ensures { answer.new ≡ row (check_answer (net_of kinds.now types.now gates.now sources.now drains.now)) }
{
    let net = Network {
        kinds,
        types,
        gates,
        sources,
        drains,
    };
    *answer = twistdory::check(&net).into();
}

#[unsafe(no_mangle)]
pub extern "C" fn twistdory_reset(kinds: &[u8], states: &mut [u8], answer: &mut [u32; 4])
    ensures { Told (reset_outcome kinds.now states.old) answer.new states.new [] }
{
    *answer = twistdory::reset(kinds, states).into();
}

#[unsafe(no_mangle)]
pub extern "C" fn twistdory_step(
    kinds: &[u8],
    states: &mut [u8],
    types: &[u8],
    gates: &[u16],
    sources: &[u16],
    drains: &[u16],
    work: &mut [u16],
    answer: &mut [u32; 4],
)
    ensures { let net = net_of kinds.now types.now gates.now sources.now drains.now in
        Told (step_outcome net states.old work.old) answer.new states.new work.new }
{
    let net = Network {
        kinds,
        types,
        gates,
        sources,
        drains,
    };
    *answer = twistdory::step(&net, states, work).into();
}

#[unsafe(no_mangle)]
pub extern "C" fn twistdory_unit_run(
    kinds: &[u8],
    states: &mut [u8],
    types: &[u8],
    gates: &[u16],
    sources: &[u16],
    drains: &[u16],
    change_nodes: &[u16],
    change_states: &[u8],
    limit: u32,
    work: &mut [u16],
    answer: &mut [u32; 4],
)
    ensures { let net = net_of kinds.now types.now gates.now sources.now drains.now in
        let changes = changes_of change_nodes.now change_states.now in
        Told (unit_outcome net states.old changes limit work.old) answer.new states.new work.new }
{
    let net = Network {
        kinds,
        types,
        gates,
        sources,
        drains,
    };
    let changes = ChangeList {
        nodes: change_nodes,
        states: change_states,
    };
    *answer = twistdory::unit_run(&net, states, &changes, limit, work).into();
}

#[unsafe(no_mangle)]
pub extern "C" fn twistdory_ternary_run(
    kinds: &[u8],
    states: &mut [u8],
    types: &[u8],
    gates: &[u16],
    sources: &[u16],
    drains: &[u16],
    change_nodes: &[u16],
    change_states: &[u8],
    work: &mut [u16],
    answer: &mut [u32; 4],
)
    ensures { let net = net_of kinds.now types.now gates.now sources.now drains.now in
        let changes = changes_of change_nodes.now change_states.now in
        Told (ternary_outcome net states.old changes work.old) answer.new states.new work.new }
{
    let net = Network {
        kinds,
        types,
        gates,
        sources,
        drains,
    };
    let changes = ChangeList {
        nodes: change_nodes,
        states: change_states,
    };
    *answer = twistdory::ternary_run(&net, states, &changes, work).into();
}

#[unsafe(no_mangle)]
pub extern "C" fn twistdory_read_sim(
    text: &[u8],
    kinds: &mut [u8],
    types: &mut [u8],
    gates: &mut [u16],
    sources: &mut [u16],
    drains: &mut [u16],
    answer: &mut [u32; 4],
)
    ensures { ToldRead (read_outcome text.now (net_of kinds.old types.old gates.old sources.old drains.old)) answer.new (net_of kinds.new types.new gates.new sources.new drains.new) }
{
    *answer = reader::read_sim(text, kinds, types, gates, sources, drains).into();
}

// The part's offset and length.
#[tactic(auto, using(reader::proofs::Parts::part_small))]
#[unsafe(no_mangle)]
pub extern "C" fn twistdory_node_name(text: &[u8], number: u32, part: &mut [u32; 2])
    ensures { let name = name_part text.now number in
        part.new ≡ name.start ∷ name.size ∷ [] }
{
    // By `as`: std has no `From` of a u32 for usize.
    let name = reader::node_span(text, number as usize);
    *part = [name.start as u32, name.size as u32];
}

#[unsafe(no_mangle)]
pub extern "C" fn twistdory_node_names(
    text: &[u8],
    starts: &mut [u16],
    sizes: &mut [u8],
    answer: &mut [u32; 4],
)
    ensures { ToldNames (names_outcome text.now starts.old sizes.old) answer.new starts.new sizes.new }
{
    *answer = reader::node_names(text, starts, sizes).into();
}
