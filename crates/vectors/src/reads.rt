// A case of a read: its rooms are lists of the case, and its file stands after them.
use feed::fields::Case;
use feed::lines;
use feed::lines::Digests;
use std::io;

fn call(
    rt: &impl Print,
    number: u64,
    case: Case,
    file: &[u8],
    words: &mut [u64],
    values: &mut [u64],
    errors: &mut [i64],
) -> io::Result<()> {
    let answer = calls::file::read(file, words, values, errors);
    let digests = Digests::of(file, values, errors, words);
    lines::tell(rt, number, case.operation, answer, digests)
}

// `latest` is the room of bytes that was lent last.
pub fn run(rt: &impl Print, number: u64, case: Case, latest: &[u8]) -> io::Result<()> {
    let mut buffer = [0u8; 65_536];
    let mut words = [0u64; 100];
    let mut values = [0u64; 3_000];
    let mut room = [0i64; 3_000];
    let errors = case.errors.signed(&mut values, &mut room);
    call(
        rt,
        number,
        case,
        case.file_in(latest, &mut buffer),
        case.words.alone(&mut words),
        case.ledger.alone(&mut values),
        errors,
    )
}
