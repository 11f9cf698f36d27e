// The body of a line: as many numbers as its kind has, and nothing after them.
ghost use Rattle.std.specs.Prelude.{◌≡◌, ◌≤◌, length};
ghost use Rattle.entry.specs.Records.{ended as endedBy, no_numbers, one_more, numbers_from};
ghost use Rattle.entry.specs.Steps.{fields_at};

use crate::fields::{next_number, reach};
use crate::{Numbers, Run, Wrong};

impl Numbers {
    // The numbers where nothing but blanks follows.
    #[tactic(auto, using(crate::proofs::Lines::line_ended, crate::proofs::Lines::line_not_ended))]
    fn ended(self, line: &[u8], at: usize) -> Result<Numbers, Wrong>
        requires { at ≤ length line.now }
        ensures { result ≡ endedBy (fields_at line.now at) self }
    {
        if reach(line, at, Run::Blanks) != line.len() {
            return Err(Wrong::FieldTooMany);
        }
        Ok(self)
    }

    fn one_more(self, value: u64) -> Numbers
        ensures { result ≡ one_more self value }
    {
        Numbers {
            first: self.second,
            second: self.third,
            third: value,
        }
    }
}

// Exactly `count` numbers from `from` on.
#[tactic(auto, using(crate::proofs::Lines::none_read, crate::proofs::Lines::one_read, crate::proofs::Lines::not_read, crate::proofs::Lines::all_read))]
pub fn read_numbers(line: &[u8], from: usize, count: usize) -> Result<Numbers, Wrong>
    requires { from ≤ length line.now }
    ensures { result ≡ numbers_from count no_numbers (fields_at line.now from) }
{
    let mut numbers = Numbers {
        first: 0,
        second: 0,
        third: 0,
    };
    let mut at = from;
    for read in 0..count {
        let (value, to) = next_number(line, at)?;
        numbers = numbers.one_more(value);
        at = to;
    }
    numbers.ended(line, at)
}
