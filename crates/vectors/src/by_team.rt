// A case by a team's own bits: its level is the team's byte, and the first words are the marks, as many as the room has bytes. A batch has its lines
// and the errors found after them, one finding its line and the pattern of its error as numbers.
use answers::Answer;
use feed::fields::Case;
use feed::lines::Digests;
use feed::operations::Operation;
use feed::{lines, rooms};
use parts::{front_to_fill, part};
use std::io;

fn answer(
    case: Case,
    ledger: &[u64],
    marks: &mut [u8],
    errors: &mut [i64],
    words: &[u64],
    amounts: &mut [i64],
) -> Answer {
    let team = case.level;
    match case.operation {
        Operation::TeamSplit => calls::team_split(team, ledger, case.first, marks),
        Operation::TeamDraw => calls::team_draw(team, ledger, case.first, case.second, marks),
        Operation::TeamPost => {
            calls::team_post(team, ledger, marks, errors, case.first, case.error())
        }
        _ => {
            let found = case.found(words, amounts);
            calls::team_post_all(team, ledger, marks, errors, case.lines(words), found)
        }
    }
}

fn call(
    rt: &impl Print,
    number: u64,
    case: Case,
    ledger: &[u64],
    errors: &mut [i64],
    words: &[u64],
    amounts: &mut [i64],
    room: &mut [u8],
) -> io::Result<()> {
    rooms::fill_from(words, room);
    let answer = answer(case, ledger, room, errors, words, amounts);
    let digests = Digests::of(room, ledger, errors, words);
    lines::tell(rt, number, case.operation, answer, digests)
}

pub fn run(
    rt: &impl Print,
    number: u64,
    case: Case,
    numbers: &mut [u64],
    errors: &mut [i64],
    amounts: &mut [i64],
    room: &mut [u8],
) -> io::Result<()> {
    let errors = case.errors.signed(numbers, errors);
    let lists = case.lay(numbers);
    call(
        rt,
        number,
        case,
        part(numbers, 0, lists.ledger),
        errors,
        part(numbers, lists.ledger, lists.words),
        amounts,
        front_to_fill(room, case.room),
    )
}
