// The bytes of a line: blanks, fields, and numbers in decimal digits.
ghost use Rattle.std.specs.Prelude.{◌≡◌, ◌≤◌, length};
ghost use Rattle.entry.specs.Text.{blank, goes_on};
ghost use Rattle.entry.specs.Records.{number_of};
ghost use Rattle.entry.specs.Steps.{Reached, NextNumber};

use crate::{Run, Wrong};

#[tactic(auto, unfolding(crate::specs::Text::blank))]
fn is_blank(byte: u8) -> bool
    ensures { result ≡ blank byte }
{
    byte == b' ' || byte == b'\t' || byte == b'\r'
}

impl Run {
    #[tactic(auto, unfolding(crate::specs::Text::goes_on))]
    fn goes_on(self, byte: u8) -> bool
        ensures { result ≡ goes_on self byte }
    {
        match self {
            Run::Blanks => is_blank(byte),
            Run::Field => !is_blank(byte),
            Run::Line => byte != b'\n',
        }
    }
}

// The place where a run that begins at `from` ends.
#[tactic(auto, using(crate::proofs::Runs::going_none, crate::proofs::Runs::going_on, crate::proofs::Runs::going_stops, crate::proofs::Runs::going_ends))]
pub fn reach(text: &[u8], from: usize, run: Run) -> usize
    requires { from ≤ length text.now }
    ensures { Reached run text.now from result }
{
    for at in from..text.len() {
        if !run.goes_on(text[at]) {
            return at;
        }
    }
    text.len()
}

// A field as a number: decimal digits only, within 64 bits.
fn number_of(field: &[u8]) -> Result<u64, Wrong>
    ensures { result ≡ number_of field.now }
{
    let mut value: u64 = 0;
    for byte in field {
        if *byte < b'0' || *byte > b'9' {
            return Err(Wrong::NotNumber);
        }
        let digit = (*byte - b'0') as u64;
        if value > (u64::MAX - digit) / 10 {
            return Err(Wrong::NumberTooLarge);
        }
        value = 10 * value + digit;
    }
    Ok(value)
}

// The number that stands next from `at` on, and the place after it.
#[tactic(auto, using(crate::proofs::Lines::number_missing, crate::proofs::Lines::number_wrong, crate::proofs::Lines::number_read))]
pub fn next_number(line: &[u8], at: usize) -> Result<(u64, usize), Wrong>
    requires { at ≤ length line.now }
    ensures { NextNumber line.now at result }
{
    let from = reach(line, at, Run::Blanks);
    if from == line.len() {
        return Err(Wrong::NumberMissing);
    }
    let to = reach(line, from, Run::Field);
    let value = number_of(&line[from..to])?;
    Ok((value, to))
}
