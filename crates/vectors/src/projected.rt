// A case of the projected lines: the amounts are the list in the place of the words, lent in a buffer of their own.
use feed::fields::Case;
use feed::lines;
use feed::lines::Digests;
use feed::rooms::digest;
use parts::part;
use std::io;

fn call(
    rt: &impl Print,
    number: u64,
    case: Case,
    ledger: &[u64],
    errors: &[i64],
    amounts: &mut [i64],
) -> io::Result<()> {
    let answer = calls::project_lines(ledger, case.first, case.second, errors, amounts);
    let digests = Digests {
        words: digest(amounts),
        ..Digests::of(&[], ledger, errors, &[])
    };
    lines::tell(rt, number, case.operation, answer, digests)
}

pub fn run(
    rt: &impl Print,
    number: u64,
    case: Case,
    numbers: &mut [u64],
    errors: &mut [i64],
    amounts: &mut [i64],
) -> io::Result<()> {
    let errors = case.errors.signed(numbers, errors);
    let amounts = case.words.signed(numbers, amounts);
    let lines = case.ledger.lay(numbers, 0);
    call(rt, number, case, part(numbers, 0, lines), errors, amounts)
}
