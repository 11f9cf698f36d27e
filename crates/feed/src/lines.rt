// The line of a case: its number and the operation's name, the answer, the digests of what was lent.
ghost use Rattle.std.specs.Prelude.{◌≡◌, Some, None};

use crate::operations::Operation;
use crate::rooms::digest;
use answers::Answer;
use pen::Pen;
use std::io;

// The digests of what was lent: the room or the file, and each list; amounts, or counts and starts, a batch of findings or a summary, stand in the
// place of the words, and a salvage's file in that of the ledger. And that of the strata's rows, of a season's tallies, or of an old Z, where there is one.
#[derive(Clone, Copy)]
pub struct Digests {
    pub bytes: u64,
    pub ledger: u64,
    pub errors: u64,
    pub words: u64,
    pub rows: Option<u64>,
}

impl Digests {
    // What an operation without rows is lent.
    pub fn of(bytes: &[u8], ledger: &[u64], errors: &[i64], words: &[u64]) -> Digests
        ensures { result.rows ≡ None }
    {
        Digests {
            bytes: digest(bytes),
            ledger: digest(ledger),
            errors: digest(errors),
            words: digest(words),
            rows: None,
        }
    }

    // What an operation with rows is lent.
    pub fn with_rows(rows: u64, ledger: &[u64], errors: &[i64], words: &[u64]) -> Digests
        ensures { result.rows ≡ Some rows }
    {
        Digests {
            bytes: 0,
            ledger: digest(ledger),
            errors: digest(errors),
            words: digest(words),
            rows: Some(rows),
        }
    }
}

// " rows" and the digest of rows, where there are some.
fn put_rows(pen: Pen, page: &mut [u8], rows: Option<u64>) -> Pen {
    match rows {
        Some(rows) => pen.text(page, b" rows").fields(page, &[rows]),
        None => pen,
    }
}

// " lent" and digests.
fn put_lent(pen: Pen, page: &mut [u8], digests: &[u64]) -> Pen {
    pen.text(page, b" lent").fields(page, digests)
}

// The digests of the lists that an operation was lent, in its own order.
fn put_lists(pen: Pen, page: &mut [u8], operation: Operation, d: Digests) -> Pen {
    match operation {
        Operation::Size | Operation::AttributeSize | Operation::AttributeBound => pen,
        Operation::Start | Operation::Tally => put_lent(pen, page, &[d.words]),
        Operation::Split
        | Operation::Draw
        | Operation::TeamSplit
        | Operation::TeamDraw
        | Operation::BoardDraw
        | Operation::Salvage => put_lent(pen, page, &[d.ledger, d.bytes]),
        Operation::Project | Operation::Judge | Operation::BoardProject => {
            put_lent(pen, page, &[d.ledger, d.errors])
        }
        Operation::StrataPlan
        | Operation::TotalsBuild
        | Operation::TotalsTotal
        | Operation::TotalsFind
        | Operation::TotalsChange
        | Operation::TotalsAppend
        | Operation::TotalsCheck => put_lent(pen, page, &[d.ledger, d.words]),
        Operation::Lines | Operation::StrataProject => {
            put_lent(pen, page, &[d.ledger, d.errors, d.words])
        }
        Operation::StrataDraw => put_lent(pen, page, &[d.ledger, d.words, d.bytes]),
        Operation::Post | Operation::PostAll | Operation::TeamPost | Operation::TeamPostAll => {
            put_lent(pen, page, &[d.ledger, d.errors, d.words, d.bytes])
        }
        Operation::Read => put_lent(pen, page, &[d.bytes, d.words, d.ledger, d.errors]),
        Operation::Write | Operation::Unknown => {
            put_lent(pen, page, &[d.words, d.ledger, d.errors, d.bytes])
        }
    }
}

// Writes the line.
pub fn tell(
    rt: &impl Print,
    number: u64,
    operation: Operation,
    answer: Answer,
    digests: Digests,
) -> io::Result<()> {
    let mut page = [0u8; 256];
    let numbered = Pen { at: 0 }.number(&mut page, number);
    let named = numbered.text(&mut page, operation.name());
    let answered = answers::put(named, &mut page, answer);
    let rowed = put_rows(answered, &mut page, digests.rows);
    let told = put_lists(rowed, &mut page, operation, digests);
    answers::write_line(rt, &mut page, told)
}
