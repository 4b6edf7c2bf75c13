// What a line of the extractor's text is, shared by the code and by the definitions of its meaning. The definitions of a text's lines, of the
// network that they add up to, and of what reading answers and leaves are in specs/; what is proved of them is the crate textlaws.
#![tactic(auto)]

ghost use Rattle.std.specs.Prelude.{◌≡◌, ◌≤◌, length};
ghost use Rattle.text.specs.Bytes.{past, part};
ghost use Rattle.text.specs.Netlist.{type_number};

// A part of the text: where it starts, and how many bytes it has.
#[derive(Clone, Copy, PartialEq, Eq)]
pub struct Span {
    pub start: usize,
    pub size: usize,
}

impl Span {
    // The place after it.
    pub fn end(self) -> usize
        requires { past self ≤ usize.MAX }
        ensures { result ≡ past self }
    {
        self.start + self.size
    }

    // Its bytes.
    #[tactic(auto, unfolding(crate::specs::Bytes::part))]
    pub fn of<'t>(self, text: &'t [u8]) -> &'t [u8]
        requires { past self ≤ length text.now }
        ensures { result.now ≡ part text.now self }
    {
        &text[self.start..self.end()]
    }
}

// A device's three names.
#[derive(Clone, Copy, PartialEq, Eq)]
pub struct Names {
    pub gate: Span,
    pub source: Span,
    pub drain: Span,
}

#[derive(Clone, Copy, PartialEq, Eq)]
pub enum DeviceType {
    N,
    P,
    D,
}

// Its number in a table of types.
impl From<DeviceType> for u8 {
    ghost from_gives = { λ t n. n ≡ type_number t };

    fn from(t: DeviceType) -> u8 {
        match t {
            DeviceType::N => 0,
            DeviceType::P => 1,
            DeviceType::D => 2,
        }
    }
}

// A line of the text: a device, a line to skip, or one that is neither and is refused.
#[derive(Clone, Copy, PartialEq, Eq)]
pub enum Line {
    Device(DeviceType, Names),
    Skip,
    Bad,
}

// What a line's first field says of it.
#[derive(Clone, Copy, PartialEq, Eq)]
pub enum Opening {
    Of(DeviceType),
    Skipped,
    Other,
}
