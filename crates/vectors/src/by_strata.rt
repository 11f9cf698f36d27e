// A case by strata: the words are the counts, as many as the second number says, then the starts.
use feed::fields::Case;
use feed::lines::Digests;
use feed::operations::Operation;
use feed::{lines, rooms};
use parts::{front_to_fill, part};
use results::{StratumPlan, StratumProjection};
use std::io;

// The digest of the rows of the plan.
fn digest_plan(rows: [StratumPlan; 32]) -> u64 {
    let mut digest: u64 = 1;
    for row in &rows {
        let figures = [
            row.draws,
            row.interval,
            row.draws_left,
            row.sampled_total,
            row.full_lines,
            row.full_total,
        ];
        digest = rooms::digest_on(digest, &figures);
    }
    digest
}

// The digest of the rows of the projection.
fn digest_projection(rows: [StratumProjection; 32]) -> u64 {
    let mut digest: u64 = 1;
    for row in &rows {
        let figures = [
            row.draws,
            row.interval,
            row.full,
            row.sampled,
            row.under_full,
            row.under_sampled,
        ];
        digest = rooms::digest_on(digest, &figures);
    }
    digest
}

fn call(
    rt: &impl Print,
    number: u64,
    case: Case,
    ledger: &[u64],
    errors: &[i64],
    words: &[u64],
    room: &mut [u8],
) -> io::Result<()> {
    let counts = case.counts(words);
    let starts = case.starts(words);
    let (answer, digests) = match case.operation {
        Operation::StrataPlan => {
            let r = calls::strata_plan(ledger, counts, case.first);
            let rows = digest_plan(r.stratum);
            (
                calls::of_strata_plan(r),
                Digests::with_rows(rows, ledger, errors, words),
            )
        }
        Operation::StrataDraw => {
            rooms::fill(room);
            let answer = calls::strata_draw(ledger, counts, case.first, starts, room);
            (answer, Digests::of(room, ledger, errors, words))
        }
        _ => {
            let r = calls::strata_project(ledger, counts, case.first, starts, errors);
            let rows = digest_projection(r.stratum);
            (
                calls::of_strata_project(r),
                Digests::with_rows(rows, ledger, errors, words),
            )
        }
    };
    lines::tell(rt, number, case.operation, answer, digests)
}

pub fn run(
    rt: &impl Print,
    number: u64,
    case: Case,
    numbers: &mut [u64],
    errors: &mut [i64],
    room: &mut [u8],
) -> io::Result<()> {
    let errors = case.errors.signed(numbers, errors);
    let lists = case.lay(numbers);
    call(
        rt,
        number,
        case,
        part(numbers, 0, lists.ledger),
        errors,
        part(numbers, lists.ledger, lists.words),
        front_to_fill(room, case.room),
    )
}
