// Texts, codes and numbers of a dump, character by character: how long they are, and written to an output that has room for them.
#![tactic(auto, using(crate::proofs::Numbers::digits))]

ghost use Rattle.std.specs.Prelude.{◌≤◌, ◌<◌, ◌≡◌, [], ◌∷◌, length};
ghost use Rattle.model.specs.Bounds.{most_nodes, highest_limit};
ghost use Rattle.waves.specs.Dump.{code, decimal};
ghost use Rattle.lettering.specs.Writing.{HasRoom, Writes};

use itoa::Buffer;

// How many characters a node's code has.
pub fn code_length(node: usize) -> usize
    requires { node < most_nodes }
    ensures { result ≡ length (code node) }
{
    if node < 94 { 1 } else { 2 }
}

// How many digits a number has.
pub fn decimal_length(number: usize) -> usize
    requires { number ≤ highest_limit }
    ensures { result ≡ length (decimal number) }
{
    match number {
        0..=9 => 1,
        10..=99 => 2,
        100..=999 => 3,
        1000..=9999 => 4,
        _ => 5,
    }
}

// An output that is written from its front on, and the place that comes next. What writes to it goes on after what it wrote.
#[derive(Drop)]
pub struct Writer<'a> {
    pub out: &'a mut [u8],
    pub place: usize,
}

impl Writer<'_> {
    // One character.
    pub fn byte(&mut self, byte: u8)
        requires { HasRoom self.old (byte ∷ []) }
        ensures { Writes self.old (byte ∷ []) self.new }
    {
        self.out[self.place] = byte;
        self.place += 1;
    }

    // A text as it stands.
    pub fn text(&mut self, text: &[u8])
        requires { HasRoom self.old text.now }
        ensures { Writes self.old text.now self.new }
    {
        let end = self.place + text.len();
        self.out[self.place..end].copy_from_slice(text);
        self.place = end;
    }

    // A node's code, lowest digit first.
    pub fn code(&mut self, node: usize)
        requires { (node < most_nodes) × HasRoom self.old (code node) }
        ensures { Writes self.old (code node) self.new }
    {
        if node < 94 {
            self.byte((33 + node) as u8);
        } else {
            self.byte((33 + node % 94) as u8);
            self.byte((33 + node / 94) as u8);
        }
    }

    // A number, highest digit first.
    pub fn decimal(&mut self, number: usize)
        requires { HasRoom self.old (decimal number) }
        ensures { Writes self.old (decimal number) self.new }
    {
        self.text(Buffer::new().format(number).as_bytes());
    }
}
