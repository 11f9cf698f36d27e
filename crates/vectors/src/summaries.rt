// A case of the totals beside the ledger: the ledger is the room, the words are the summary, and the first number is the count. Then follow the cent,
// or the line and the value, or the value alone.
use answers::Answer;
use calls::summary::{
    totals_append, totals_build, totals_change, totals_check, totals_find, totals_total,
};
use feed::fields::Case;
use feed::lines;
use feed::lines::Digests;
use feed::operations::Operation;
use std::io;

fn answer(case: Case, room: &mut [u64], summary: &mut [u64]) -> Answer {
    let count = case.first;
    match case.operation {
        Operation::TotalsBuild => totals_build(room, count, summary),
        Operation::TotalsTotal => totals_total(room, count, summary),
        Operation::TotalsFind => totals_find(room, count, summary, case.second),
        Operation::TotalsChange => totals_change(room, count, summary, case.second, case.third),
        Operation::TotalsAppend => totals_append(room, count, summary, case.second),
        _ => totals_check(room, count, summary),
    }
}

fn call(
    rt: &impl Print,
    number: u64,
    case: Case,
    room: &mut [u64],
    summary: &mut [u64],
) -> io::Result<()> {
    let answer = answer(case, room, summary);
    let digests = Digests::of(&[], room, &[], summary);
    lines::tell(rt, number, case.operation, answer, digests)
}

pub fn run(rt: &impl Print, number: u64, case: Case, numbers: &mut [u64]) -> io::Result<()> {
    let mut words = [0u64; 1_000];
    call(
        rt,
        number,
        case,
        case.ledger.alone(numbers),
        case.words.alone(&mut words),
    )
}
