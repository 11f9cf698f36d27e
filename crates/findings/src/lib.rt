// Findings: errors that were found, posted beside the ledger singly or by the batch.
#![tactic(auto)]

ghost use Rattle.std.specs.Prelude.{◌≡◌, length};
ghost use Rattle.terms.specs.Outcome.{says};
ghost use Rattle.bits.specs.Own.{bits_of};
ghost use Rattle.findings.specs.Findings.{misplaced, equally_long, line_of, PostPromise};
ghost use Rattle.findings.specs.Batch.{placed_at, PairPromise, Postable, PairsPromise, PostAllPromise};

use bits::Bits;
use terms::Refusal;

// The marks beside the ledger, as many, of which a call reads its own bits.
#[derive(Clone, Copy)]
struct Marked<'a> {
    bits: Bits,
    ledger: &'a [u64],
    marks: &'a [u8],
    ghost same: { length marks.now ≡ length ledger.now },
}

// Marks and errors are as many as the ledger's lines.
fn equally_long(ledger: usize, marks: usize, errors: usize) -> bool
    ensures { result ≡ equally_long ledger marks errors }
{
    marks == ledger && errors == ledger
}

// An error other than 0 on a line whose mark says neither drawn, 1, nor full, 2.
fn misplaced(mark: u8, size: u64) -> bool
    ensures { result ≡ misplaced mark size }
{
    size != 0 && mark != 1 && mark != 2
}

impl Marked<'_> {
    // The line of a finding, or 20 where it is not in the ledger, 14 where the error exceeds its value, 15 where it has an error and is neither
    // drawn nor full by the own bits of its mark. The refusal names the position.
    #[tactic(auto, unfolding(crate::specs::Findings::line_of), using(bits::proofs::Lists::bits_at))]
    fn line_of(self, position: u64, line: u64, error: i64) -> Result<usize, Refusal>
        ensures { says result ≡ placed_at position (line_of self.entry.ledger.now (bits_of self.entry.bits self.entry.marks.now) line error) }
    {
        if line >= self.ledger.len() as u64 {
            return Err(Refusal::LineNotThere(position));
        }
        let item = line as usize;
        let size = signed::size_of(error);
        if size > self.ledger[item] {
            return Err(Refusal::ErrorAboveValue(position));
        }
        if misplaced(self.bits.own(self.marks[item]), size) {
            return Err(Refusal::ErrorNotDrawn(position));
        }
        Ok(item)
    }

    // Posts one pair, or answers why not, with its position. Nothing is stored before its line has passed.
    fn post_pair(
        self,
        errors: &mut [i64],
        position: u64,
        line: u64,
        error: i64,
    ) -> Result<u64, Refusal>
        requires { length errors.old ≡ length self.ledger.now }
        ensures { PairPromise self.entry.ledger.now (bits_of self.entry.bits self.entry.marks.now) errors.old position line error result errors.new }
    {
        let item = self.line_of(position, line, error)?;
        errors[item] = error;
        Ok(1)
    }

    // Posts the pairs singly in their order, up to the first that is refused. C lends the lines and the errors found on them apart; they are as long.
    fn post_pairs(self, errors: &mut [i64], lines: &[u64], found: &[i64]) -> Result<u64, Refusal>
        requires { Postable self.ledger.now (bits_of self.bits self.marks.now) errors.old lines.now found.now }
        ensures { PairsPromise self.entry.ledger.now (bits_of self.entry.bits self.entry.marks.now) errors.old lines.now found.now result errors.new }
    {
        for (position, line) in lines.iter().enumerate() {
            self.post_pair(errors, position as u64, *line, found[position])?;
        }
        Ok(lines.len() as u64)
    }
}

// One finding by the own bits of the marks.
pub fn post_by(
    bits: Bits,
    ledger: &[u64],
    marks: &[u8],
    errors: &mut [i64],
    line: u64,
    error: i64,
) -> Result<u64, Refusal>
    ensures { PostPromise ledger.now (bits_of bits marks.now) errors.old line error result errors.new }
{
    if !equally_long(ledger.len(), marks.len(), errors.len()) {
        return Err(Refusal::LengthsDiffer);
    }
    let marked = Marked {
        bits,
        ledger,
        marks,
    };
    marked.post_pair(errors, 0, line, error)
}

// One finding: the error of a line, which replaces the one that was there; 0 clears it.
pub fn post(
    ledger: &[u64],
    marks: &[u8],
    errors: &mut [i64],
    line: u64,
    error: i64,
) -> Result<u64, Refusal>
    ensures { PostPromise ledger.now marks.now errors.old line error result errors.new }
{
    post_by(Bits::All, ledger, marks, errors, line, error)
}

// A batch of findings by the own bits of the marks.
pub fn post_all_by(
    bits: Bits,
    ledger: &[u64],
    marks: &[u8],
    errors: &mut [i64],
    lines: &[u64],
    found: &[i64],
) -> Result<u64, Refusal>
    ensures { PostAllPromise ledger.now (bits_of bits marks.now) errors.old lines.now found.now result errors.new }
{
    if !equally_long(ledger.len(), marks.len(), errors.len()) || found.len() != lines.len() {
        return Err(Refusal::LengthsDiffer);
    }
    let marked = Marked {
        bits,
        ledger,
        marks,
    };
    marked.post_pairs(errors, lines, found)
}

// A batch of findings, each the error of a line. The pairs before a refused one stay posted, and the refusal names its position.
pub fn post_all(
    ledger: &[u64],
    marks: &[u8],
    errors: &mut [i64],
    lines: &[u64],
    found: &[i64],
) -> Result<u64, Refusal>
    ensures { PostAllPromise ledger.now marks.now errors.old lines.now found.now result errors.new }
{
    post_all_by(Bits::All, ledger, marks, errors, lines, found)
}
