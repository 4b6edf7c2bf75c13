// What the programs print of an answer, and of states.
#![tactic(auto)]

ghost use Rattle.std.specs.Prelude.{◌≡◌, ◌++◌, Some, codes, decimal};
ghost use Rattle.std.specs.List.{flat_map};
ghost use Rattle.model.specs.Answer.{number, place, first_count, second_count};
ghost use Rattle.lines.specs.Letter.{letter};

use model::Answer;
use std::fmt;

// An answer by its row in the table of answers: number, place, first count and second count.
#[derive(Clone, Copy)]
pub struct Row(pub Answer);

impl fmt::Display for Row {
    ghost output = { λ r. Some (decimal (number r.0) ++ (codes " " ++ (decimal (place r.0) ++ (codes " "
        ++ (decimal (first_count r.0) ++ (codes " " ++ decimal (second_count r.0))))))) };

    fn fmt<W: fmt::Write>(&self, f: &mut fmt::Formatter<W>) -> fmt::Result {
        let [number, place, first, second] = <[u32; 4]>::from(self.0);
        write!(f, "{number} {place} {first} {second}")
    }
}

// A letter for a state: X for every one but 0 and 1. A state is a byte of a lent table, which has no `Display` of ours.
fn letter_of(state: u8) -> &'static str
    ensures { result.now ≡ letter state }
{
    match state {
        0 => "0",
        1 => "1",
        _ => "X",
    }
}

// States, a letter each, from node 0.
#[derive(Clone, Copy)]
pub struct States<'a>(pub &'a [u8]);

impl fmt::Display for States<'_> {
    ghost output = { λ s. Some (flat_map letter s.0.now) };

    fn fmt<W: fmt::Write>(&self, f: &mut fmt::Formatter<W>) -> fmt::Result {
        for state in self.0 {
            f.write_str(letter_of(*state))?;
        }
        Ok(())
    }
}
