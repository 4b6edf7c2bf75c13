// What is lent and what an entry answers, shared by the code and by the definitions of its meaning. The definitions of a network, of its
// steps and of its runs are in specs/; what is proved of them is the crate laws.
#![tactic(auto)]

ghost use Rattle.std.specs.Prelude.{◌≡◌};
ghost use Rattle.model.specs.Net.{input_kind};
ghost use Rattle.model.specs.Answer.{row, number, place, first_count, second_count};

// The bounds on what is lent; Bounds.antt has them for the definitions, and the contracts hold the two together.
pub const MOST_NODES: usize = 4096;

pub const MOST_TRANSISTORS: usize = 8192;

pub const MOST_CHANGES: usize = 4096;

pub const HIGHEST_KIND: u8 = 4;

pub const HIGHEST_TYPE: u8 = 2;

pub const HIGHEST_STATE: u8 = 2;

pub const HIGHEST_LIMIT: u32 = 10000;

pub const DEFAULT_LIMIT: u32 = 1000;

// The bytes of a text, and those of a name in it.
pub const MOST_BYTES: usize = 65535;

pub const MOST_NAME: usize = 63;

// The kind that a pullup load gives its node, and those of the rails. Kinds, types and states are numbers and no enums: bytes of the tables that
// are lent, as the C interface has them.
pub const PULLUP: u8 = 1;

pub const GROUND: u8 = 3;

pub const POWER: u8 = 4;

// The one place in the code that says which kinds are inputs.
pub fn is_input(kind: u8) -> bool
    ensures { result ≡ input_kind kind }
{
    kind > 1
}

// A network as it is lent: a kind for each node; a type, a gate, a source and a drain for each transistor.
#[derive(Clone, Copy)]
pub struct Network<'a> {
    pub kinds: &'a [u8],
    pub types: &'a [u8],
    pub gates: &'a [u16],
    pub sources: &'a [u16],
    pub drains: &'a [u16],
}

// A change list as it is lent: the nodes that are changed, and the state that each takes.
#[derive(Clone, Copy)]
pub struct ChangeList<'a> {
    pub nodes: &'a [u16],
    pub states: &'a [u8],
}

// One of ten kinds, each with its own numbers.
#[derive(Clone, Copy)]
pub enum Answer {
    // settled, or done with what was asked: after a step the first node that it changed, or the number of nodes where it changed none,
    // else 0; the counts of a step, a unit run, both halves of a ternary run, the nodes and transistors of a text
    Done { place: u32, first: u32, second: u32 },
    // a length or a count breaks the bounds
    Size,
    // the step limit is too high
    Limit,
    // the first node of no known kind
    Kind(u32),
    // the first transistor of no known type, or that names no node
    Wire(u32),
    // the first node in no known state
    State(u32),
    // the first entry of the change list that can't be entered
    Change(u32),
    // a ternary run from a state that is not settled
    Start,
    // a unit run that did not settle within its limit: the first node that the next step would change, and the limit in force
    Oscillates { place: u32, limit: u32 },
    // reading a text: the first line that is no device and none to skip, or for which there is no room, counted from 0
    Text(u32),
}

// The four numbers of an answer, its row in the table of answers: number, place, first count, second count.
impl From<Answer> for [u32; 4] {
    ghost from_gives = { λ a numbers. numbers ≡ row a };

    fn from(answer: Answer) -> [u32; 4] {
        match answer {
            Answer::Done {
                place,
                first,
                second,
            } => [0, place, first, second],
            Answer::Size => [1, 0, 0, 0],
            Answer::Limit => [2, 0, 0, 0],
            Answer::Kind(node) => [3, node, 0, 0],
            Answer::Wire(transistor) => [4, transistor, 0, 0],
            Answer::State(node) => [5, node, 0, 0],
            Answer::Change(entry) => [6, entry, 0, 0],
            Answer::Start => [7, 0, 0, 0],
            Answer::Oscillates { place, limit } => [8, place, limit, 0],
            Answer::Text(line) => [9, line, 0, 0],
        }
    }
}

impl Answer {
    // The answer's number in the table of answers.
    pub fn number(self) -> u32
        ensures { result ≡ number self }
    {
        let [number, _, _, _] = <[u32; 4]>::from(self);
        number
    }

    // The node, transistor, entry or line that a refusal is about; the node that a step changed first, or the number of nodes; the node that
    // the step after OSCILLATES would change first; else 0.
    pub fn place(self) -> u32
        ensures { result ≡ place self }
    {
        let [_, place, _, _] = <[u32; 4]>::from(self);
        place
    }

    // Its first count.
    pub fn first_count(self) -> u32
        ensures { result ≡ first_count self }
    {
        let [_, _, first, _] = <[u32; 4]>::from(self);
        first
    }

    // Its second count.
    pub fn second_count(self) -> u32
        ensures { result ≡ second_count self }
    {
        let [_, _, _, second] = <[u32; 4]>::from(self);
        second
    }
}
