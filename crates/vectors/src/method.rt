// A case of any operation but the read: it lends what the case gives, calls the operation and writes the line.
use answers::Answer;
use feed::fields::Case;
use feed::lines::Digests;
use feed::operations::Operation;
use feed::{lines, rooms};
use parts::{front_to_fill, part};
use std::io;

// The numbers of a case, by its operation; one that is no operation's is answered as a size.
fn answer(case: Case, ledger: &[u64], errors: &[i64], words: &[u64], room: &mut [u8]) -> Answer {
    let Case {
        level,
        first,
        second,
        third,
        ..
    } = case;
    match case.operation {
        Operation::Split => calls::split(ledger, first, room),
        Operation::Start => calls::start(first, words),
        Operation::Draw => calls::draw(ledger, first, second, room),
        Operation::Project => calls::project(ledger, first, second, errors),
        Operation::BoardDraw => calls::board::board_draw(ledger, first, second, room),
        Operation::BoardProject => calls::board::board_project(ledger, first, second, errors),
        Operation::Judge => calls::judge(level, ledger, first, second, errors, third),
        Operation::Write => calls::file::write(level, first, second, words, ledger, errors, room),
        Operation::AttributeSize => calls::attribute_size(level, (first % 256) as u8),
        Operation::AttributeBound => calls::attribute_bound(level, (first % 256) as u8, second),
        _ => calls::size(level, first, second, third),
    }
}

fn call(
    rt: &impl Print,
    number: u64,
    case: Case,
    ledger: &[u64],
    errors: &[i64],
    words: &[u64],
    room: &mut [u8],
) -> io::Result<()> {
    rooms::fill(room);
    let answer = answer(case, ledger, errors, words, room);
    let digests = Digests::of(room, ledger, errors, words);
    lines::tell(rt, number, case.operation, answer, digests)
}

pub fn run(
    rt: &impl Print,
    number: u64,
    case: Case,
    numbers: &mut [u64],
    errors: &mut [i64],
    room: &mut [u8],
) -> io::Result<()> {
    let errors = case.errors.signed(numbers, errors);
    let lists = case.lay(numbers);
    call(
        rt,
        number,
        case,
        part(numbers, 0, lists.ledger),
        errors,
        part(numbers, lists.ledger, lists.words),
        front_to_fill(room, case.room),
    )
}
