// Branches, each transistor seen from either of its ends, and the codes that the cells of a step's tables hold.
#![tactic(auto)]

ghost use Rattle.std.specs.Prelude.{◌≡◌, ◌*◌, ◌≤◌, ◌<◌, length};
ghost use Rattle.branches.specs.Branch.{end_of};
ghost use Rattle.branches.specs.Code.{telling, mark_of, together, unlike, begin};

// The least cell that tells of sources. What cells say is said in numbers, since the lent work area has cells of 16 bits.
pub const TELLING: u16 = 64;

// How nodes are wired: how many there are, and the source and the drain of each transistor.
#[derive(Clone, Copy)]
pub struct Wiring<'a> {
    pub nodes: usize,
    pub sources: &'a [u16],
    pub drains: &'a [u16],
}

impl Wiring<'_> {
    // Where branch h leads: that of an even number from a transistor's source to its drain, the next one back.
    #[tactic(auto, unfolding(crate::specs::Branch::end_of))]
    pub fn far(&self, h: usize) -> usize
        requires { (length self.now.drains.now ≡ length self.now.sources.now) × (h < 2 * length self.now.sources.now) }
        ensures { result ≡ end_of self.now.drains.now self.now.sources.now h }
    {
        // Each arm reads its own table: the address is then chosen without a branch, which could not be guessed.
        let end = if h % 2 == 0 {
            self.drains[h / 2]
        } else {
            self.sources[h / 2]
        };
        usize::from(end)
    }
}

// The mark of a source in the state x: 1 at 0, 2 at 1, 3 at X. With `u16::from` in place of `as` a step takes up to a quarter longer.
#[tactic(auto, unfolding(crate::specs::Code::mark_of))]
pub fn mark_of(x: u8) -> u16
    ensures { result ≡ mark_of x }
{
    if x > 1 { 3 } else { x as u16 + 1 }
}

// What two cells tell of their sources, together: the strongest alone count.
#[tactic(auto, unfolding(crate::specs::Code::together))]
pub fn together(a: u16, b: u16) -> u16
    ensures { result ≡ together a b }
{
    if a / 4 != b / 4 {
        return a.max(b);
    }
    if a == b { a } else { 4 * (a / 4) + 3 }
}

// By the mark m, one of the sources is not at b.
#[tactic(auto, unfolding(crate::specs::Code::unlike))]
pub fn unlike(b: u8, m: u16) -> bool
    ensures { result ≡ unlike b m }
{
    if b == 0 { m >= 2 } else { m % 2 == 1 }
}

// What the table against b begins with at a node of whose joined set c tells, and u of the inputs behind unknown transistors: where a source is not at b
// three more than the 2 (k - 1) that bar what is weaker.
#[tactic(auto, unfolding(crate::specs::Code::begin))]
pub fn begin(b: u8, c: u16, u: u16) -> u16
    requires { telling 1 1 ≤ c }
    ensures { result ≡ begin b c u }
{
    if unlike(b, u % 4) {
        return 7;
    }
    let k = c / 4 - 16;
    2 * (k - 1) + 3 * u16::from(unlike(b, c % 4))
}
