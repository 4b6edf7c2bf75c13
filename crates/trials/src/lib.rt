// An entry of the library called by its name, with what it takes of all that is lent: so a program lends its tables in one place.
#![tactic(auto)]

ghost use Rattle.std.specs.Prelude.{Some};
ghost use Rattle.trials.specs.Name.{name};

use model::{Answer, ChangeList, Network};
use std::fmt;

// The library's entries: a program names an entry and calls it, so an entry is a value that does both, and no closure.
#[derive(Clone, Copy)]
pub enum Entry {
    Check,
    Reset,
    Step,
    Unit,
    Ternary,
}

impl Entry {
    // Calls the entry with what it takes of what is lent.
    pub fn call(
        self,
        net: &Network,
        states: &mut [u8],
        changes: &ChangeList,
        limit: u32,
        work: &mut [u16],
    ) -> Answer {
        match self {
            Entry::Check => twistdory::check(net),
            Entry::Reset => twistdory::reset(net.kinds, states),
            Entry::Step => twistdory::step(net, states, work),
            Entry::Unit => twistdory::unit_run(net, states, changes, limit, work),
            Entry::Ternary => twistdory::ternary_run(net, states, changes, work),
        }
    }
}

// An entry is shown by its name.
impl fmt::Display for Entry {
    ghost output = { λ entry. Some (name entry) };

    fn fmt<W: fmt::Write>(&self, f: &mut fmt::Formatter<W>) -> fmt::Result {
        match self {
            Entry::Check => write!(f, "check"),
            Entry::Reset => write!(f, "reset"),
            Entry::Step => write!(f, "step"),
            Entry::Unit => write!(f, "unit"),
            Entry::Ternary => write!(f, "ternary"),
        }
    }
}
