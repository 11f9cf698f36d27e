// Runs every operation on the cases of standard input and writes a line for each: the answer, and a digest of every lent list.
// The form of the cases is told in docs/VECTORS.md. One case is held at a time.
#![tactic(auto)]

mod by_strata; // by_strata.rt: cases by strata
mod by_team; // by_team.rt: cases by a team's own bits
mod postings; // postings.rt: cases of findings
mod projected; // projected.rt: cases of the projected lines
mod reads; // reads.rt: cases of a read
mod salvages; // salvages.rt: cases of a salvage
mod seasons; // seasons.rt: cases of the tally of a season
mod method; // method.rt: cases of the other operations
mod summaries; // summaries.rt: cases of the totals beside the ledger

ghost use Rattle.std.specs.Prelude.{◌≡◌, length};

use feed::fields::Case;
use feed::operations::Operation;
use std::io;

// Room for the lists of a case: a ledger of 100,000 lines, and 5,000 words.
fn numbers() -> [u64; 105_000]
    ensures { 105000 ≡ length result }
{
    [0; 105_000]
}

// Room for the errors of a case; and for the amounts of projected lines, or the errors that a batch of findings has.
fn signed_numbers() -> [i64; 100_000]
    ensures { 100000 ≡ length result }
{
    [0; 100_000]
}

// Room for marks, and for a file that is written.
fn bytes() -> [u8; 100_000]
    ensures { 100000 ≡ length result }
{
    [0; 100_000]
}

// The case of a number, by its operation.
fn run(
    rt: &impl Print,
    number: u64,
    case: Case,
    numbers: &mut [u64],
    errors: &mut [i64],
    amounts: &mut [i64],
    room: &mut [u8],
) -> io::Result<()> {
    match case.operation {
        Operation::Read => reads::run(rt, number, case, room),
        Operation::Lines => projected::run(rt, number, case, numbers, errors, amounts),
        Operation::StrataPlan | Operation::StrataDraw | Operation::StrataProject => {
            by_strata::run(rt, number, case, numbers, errors, room)
        }
        Operation::Tally => seasons::run(rt, number, case, numbers),
        Operation::Post | Operation::PostAll => {
            postings::run(rt, number, case, numbers, errors, amounts, room)
        }
        Operation::TeamSplit | Operation::TeamDraw | Operation::TeamPost | Operation::TeamPostAll =>
            { by_team::run(rt, number, case, numbers, errors, amounts, room) }
        Operation::Salvage => salvages::run(rt, number, case, room),
        Operation::TotalsBuild
        | Operation::TotalsTotal
        | Operation::TotalsFind
        | Operation::TotalsChange
        | Operation::TotalsAppend
        | Operation::TotalsCheck => summaries::run(rt, number, case, numbers),
        _ => method::run(rt, number, case, numbers, errors, room),
    }
}

// Case after case. The last number of 64 bits is that of no case.
fn main(rt: HostRuntime) -> io::Result<()> {
    let mut input = [0u8; 65_536];
    let mut numbers = numbers();
    let mut errors = signed_numbers();
    let mut amounts = signed_numbers();
    let mut room = bytes();
    for number in 0..0xFFFF_FFFF_FFFF_FFFF {
        let case = feed::cases::next(&rt, number, &mut input)?;
        if case.is_empty() {
            break;
        }
        run(
            &rt,
            number,
            Case::of(case),
            &mut numbers,
            &mut errors,
            &mut amounts,
            &mut room,
        )?;
    }
    Ok(())
}
