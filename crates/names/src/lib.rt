// The names that are known, and their numbers. Two tables say where each name first appears and its size. So that a name is sought among few,
// those that share a number made of their bytes are linked in a chain: `heads` has the last node of each chain and `nexts` the node before a
// node in its chain, each as one more than its number, and 0 for none: an `Option` of a u16 would take twice the room. The memory is fixed, so that chains
// stand in place of a map.
#![tactic(auto)]

ghost use Rattle.std.specs.Prelude.{◌+◌, ◌≤◌, ◌<◌, ◌≡◌, [], length, MatchOption};
ghost use Rattle.model.specs.Places.{same};
ghost use Rattle.text.specs.Bytes.{past, part, span_at};
ghost use Rattle.text.specs.Netlist.{number_of};
ghost use Rattle.text.specs.Promised.{Fits};
ghost use Rattle.text.specs.Reading.{starts_of, sizes_of};
ghost use Rattle.names.specs.Known.{known, knowing, one_more};
ghost use Rattle.names.specs.Chains.{chain_of, spans, Linked};

use std::marker::Model;
use text::Span;

// The cells for nodes: the most nodes, and three more, since a device's names are entered before they are counted.
pub const NODE_CELLS: usize = 4099;

// How many chains there are.
pub const CHAINS: usize = 4096;

// The names that are known of a text, by number. A clause sees the text and where each name first appears.
#[derive(Drop)]
pub struct KnownNames<'t> {
    text: &'t [u8],
    starts: [u16; NODE_CELLS],
    sizes: [u8; NODE_CELLS],
    heads: [u16; CHAINS],
    nexts: [u16; NODE_CELLS],
    count: u16,
}

impl<'t> Model for KnownNames<'t> {
    ghost use Rattle.names.specs.Known.{Known, known};
    ghost use Rattle.names.specs.Chains.{spans, Linked};

    ghost Value = { Known };

    ghost view = { λ a. known a.text.now (spans a.count a.starts a.sizes) };

    ghost invariant = { λ a. Linked a.text.now a.count a.starts a.sizes a.heads a.nexts };
}

// The number of a name's chain.
fn chain_of(name: &[u8]) -> usize
    ensures same { result ≡ chain_of name.now }
    ensures within { result < CHAINS }
{
    let mut chain = 0;
    for byte in name {
        chain = (chain * 31 + usize::from(*byte)) % CHAINS;
    }
    chain
}

// Whether two names are the same. Most are short: `==` of slices, which compares by groups, makes reading a text slower by 5 to 13 %.
fn same(a: &[u8], b: &[u8]) -> bool
    ensures { result ≡ same a.now b.now }
{
    if a.len() != b.len() {
        return false;
    }
    for (i, byte) in a.iter().enumerate() {
        if *byte != b[i] {
            return false;
        }
    }
    true
}

impl<'t> KnownNames<'t> {
    pub fn new(text: &'t [u8]) -> Self
        requires { length text.now ≤ 65535 }
        ensures { result ≡ known text.now [] }
    {
        KnownNames {
            text,
            starts: [0; NODE_CELLS],
            sizes: [0; NODE_CELLS],
            heads: [0; CHAINS],
            nexts: [0; NODE_CELLS],
            count: 0,
        }
    }

    // Forgets all names. Where none is known, the chains are empty already.
    #[tactic(auto, using(crate::proofs::Chaining::linked_none), unfolding(crate::specs::Chains::spans))]
    pub fn clear(&mut self)
        ensures { self.new ≡ known self.old.text [] }
    {
        if self.count == 0 {
            return;
        }
        self.heads.fill(0);
        self.count = 0;
    }

    pub fn text(&self) -> &'t [u8]
        ensures text { result.now ≡ self.now.text }
        ensures short { length result.now ≤ 65535 }
    {
        self.text
    }

    // How many are known.
    pub fn count(&self) -> usize
        ensures count { result ≡ length self.now.names }
        ensures few { result ≤ NODE_CELLS }
    {
        usize::from(self.count)
    }

    // Where the names start, by number.
    pub fn starts(&self) -> &[u16]
        ensures { result.now ≡ starts_of self.now.names }
    {
        &self.starts[..self.count()]
    }

    // Their sizes.
    pub fn sizes(&self) -> &[u8]
        ensures { result.now ≡ sizes_of self.now.names }
    {
        &self.sizes[..self.count()]
    }

    // Where the name of a node first appears.
    pub fn span(&self, number: usize) -> Span
        requires { number < length self.now.names }
        ensures { result ≡ span_at self.now.names number }
    {
        Span {
            start: usize::from(self.starts()[number]),
            size: usize::from(self.sizes()[number]),
        }
    }

    // The number of a name, sought along its chain.
    fn find(&self, name: Span, chain: usize) -> Option<usize>
        requires inside { past name ≤ length self.now.text }
        requires chained { (chain < CHAINS) × (chain ≡ chain_of (part self.now.text name)) }
        ensures { let number = number_of self.now.text self.now.names name in
            MatchOption result (number ≡ length self.now.names) (λ k. (k ≡ number) × (k < length self.now.names)) }
    {
        let bytes = name.of(self.text);
        let mut left = usize::from(self.heads[chain]);
        while left > 0 {
            let number = left - 1;
            if same(self.span(number).of(self.text), bytes) {
                return Some(number);
            }
            left = usize::from(self.nexts[number]);
        }
        None
    }

    // Enters a new name, at the head of its chain.
    fn enter(&mut self, name: Span, chain: usize) -> usize
        requires room { length self.old.names < NODE_CELLS }
        requires fits { Fits (length self.old.text) name }
        requires chained { (chain < CHAINS) × (chain ≡ chain_of (part self.old.text name)) }
        requires unknown { number_of self.old.text self.old.names name ≡ length self.old.names }
        ensures number { result ≡ length self.old.names }
        ensures entered { self.new ≡ one_more self.old name }
    {
        let number = self.count();
        self.starts[number] = name.start as u16;
        self.sizes[number] = name.size as u8;
        self.nexts[number] = self.heads[chain];
        self.count += 1;
        self.heads[chain] = self.count;
        number
    }

    // Numbers a name: it is entered among the nodes if it is not there.
    pub fn number(&mut self, name: Span) -> usize
        requires room { length self.old.names < NODE_CELLS }
        requires fits { Fits (length self.old.text) name }
        ensures number { result ≡ number_of self.old.text self.old.names name }
        ensures entered { self.new ≡ knowing self.old name }
        ensures counted { (result < length self.new.names) × (length self.old.names ≤ length self.new.names) × (length self.new.names ≤ length self.old.names + 1) }
    {
        let chain = chain_of(name.of(self.text));
        match self.find(name, chain) {
            Some(number) => number,
            None => self.enter(name, chain),
        }
    }
}
