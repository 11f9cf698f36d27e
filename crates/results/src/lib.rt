// What a caller in C sees of each operation's answer: a struct of the refusal's number and place, 0 where the call is accepted, and the
// figures, 0 where it is refused.
#![tactic(auto)]

ghost use Rattle.std.specs.Prelude.{◌≡◌};
ghost use Rattle.terms.specs.Outcome.{says};
ghost use Rattle.results.specs.Seen.{number_seen, place_seen};

use season::Tally;
use terms::{Refusal, Told};

mod board; // board.rt: answers of the blackboard method
mod by_strata; // by_strata.rt: answers of the operations by strata
mod control; // control.rt: answers of the attribute job aid
mod file; // file.rt: answers of the working file and its sheet
mod method; // method.rt: answers of the steps of the method
mod posting; // posting.rt: answers of posting findings
mod salvage; // salvage.rt: the answer of the salvage
mod summary; // summary.rt: answers of the totals beside the ledger
pub mod tally; // tally.rt: the tally of a season

// What C sees first of an answer: its refusal's number and place, both 0 where the call is accepted.
fn head<T: Copy>(answer: Result<T, Refusal>) -> Told
    ensures number { result.number ≡ number_seen (says answer) }
    ensures place { result.place ≡ place_seen (says answer) }
{
    match answer {
        Ok(_) => Told {
            number: 0,
            place: 0,
        },
        Err(why) => why.tell(),
    }
}

#[repr(C)]
#[derive(Clone, Copy)]
pub struct SizeResult {
    pub refusal: u64,
    pub place: u64,
    pub draws: u64,
}

#[repr(C)]
#[derive(Clone, Copy)]
pub struct SplitResult {
    pub refusal: u64,
    pub place: u64,
    pub interval: u64,
    pub draws_left: u64,
    pub sampled_total: u64,
    pub full_lines: u64,
    pub full_total: u64,
}

#[repr(C)]
#[derive(Clone, Copy)]
pub struct StartResult {
    pub refusal: u64,
    pub place: u64,
    pub start: u64,
    pub words: u64,
}

#[repr(C)]
#[derive(Clone, Copy)]
pub struct DrawResult {
    pub refusal: u64,
    pub place: u64,
    pub drawn: u64,
}

#[repr(C)]
#[derive(Clone, Copy)]
pub struct ProjectResult {
    pub refusal: u64,
    pub place: u64,
    pub full: u64,
    pub sampled: u64,
    pub m: u64,
    pub under_full: u64,
    pub under_sampled: u64,
    pub net: i64,
}

#[repr(C)]
#[derive(Clone, Copy)]
pub struct JudgeResult {
    pub refusal: u64,
    pub place: u64,
    pub full: u64,
    pub sampled: u64,
    pub m: u64,
    pub under_full: u64,
    pub under_sampled: u64,
    pub net: i64,
    pub precision: u64,
    pub upper_limit: u64,
    pub verdict: u64,
}

// A stratum's draws, and its own split.
#[repr(C)]
#[derive(Clone, Copy)]
pub struct StratumPlan {
    pub draws: u64,
    pub interval: u64,
    pub draws_left: u64,
    pub sampled_total: u64,
    pub full_lines: u64,
    pub full_total: u64,
}

#[repr(C)]
#[derive(Clone, Copy)]
pub struct StrataPlanResult {
    pub refusal: u64,
    pub place: u64,
    pub strata: u64,
    pub stratum: [StratumPlan; 32],
}

#[repr(C)]
#[derive(Clone, Copy)]
pub struct StrataDrawResult {
    pub refusal: u64,
    pub place: u64,
    pub drawn: u64,
}

// A stratum's draws and interval, and both sums of each kind of error.
#[repr(C)]
#[derive(Clone, Copy)]
pub struct StratumProjection {
    pub draws: u64,
    pub interval: u64,
    pub full: u64,
    pub sampled: u64,
    pub under_full: u64,
    pub under_sampled: u64,
}

// No limit and no verdict.
#[repr(C)]
#[derive(Clone, Copy)]
pub struct StrataProjectResult {
    pub refusal: u64,
    pub place: u64,
    pub over: u64,
    pub under: u64,
    pub net: i64,
    pub strata: u64,
    pub stratum: [StratumProjection; 32],
}

// The tally is handed back, refused or not.
#[repr(C)]
#[derive(Clone, Copy)]
pub struct TallyResult {
    pub refusal: u64,
    pub place: u64,
    pub tally: Tally,
}

#[repr(C)]
#[derive(Clone, Copy)]
pub struct AttributeSizeResult {
    pub refusal: u64,
    pub place: u64,
    pub items: u64,
}

#[repr(C)]
#[derive(Clone, Copy)]
pub struct AttributeBoundResult {
    pub refusal: u64,
    pub place: u64,
    pub hundredths: u64,
}

#[repr(C)]
#[derive(Clone, Copy)]
pub struct PostResult {
    pub refusal: u64,
    pub place: u64,
    pub posted: u64,
}

#[repr(C)]
#[derive(Clone, Copy)]
pub struct TotalsBuildResult {
    pub refusal: u64,
    pub place: u64,
    pub total: u64,
}

#[repr(C)]
#[derive(Clone, Copy)]
pub struct TotalsTotalResult {
    pub refusal: u64,
    pub place: u64,
    pub total: u64,
}

#[repr(C)]
#[derive(Clone, Copy)]
pub struct TotalsFindResult {
    pub refusal: u64,
    pub place: u64,
    pub line: u64,
}

#[repr(C)]
#[derive(Clone, Copy)]
pub struct TotalsChangeResult {
    pub refusal: u64,
    pub place: u64,
    pub total: u64,
}

#[repr(C)]
#[derive(Clone, Copy)]
pub struct TotalsAppendResult {
    pub refusal: u64,
    pub place: u64,
    pub count: u64,
}

#[repr(C)]
#[derive(Clone, Copy)]
pub struct TotalsCheckResult {
    pub refusal: u64,
    pub place: u64,
    pub wrong: u64,
    pub block: u64,
}

#[repr(C)]
#[derive(Clone, Copy)]
pub struct ReadResult {
    pub refusal: u64,
    pub place: u64,
    pub level: u64,
    pub te: u64,
    pub ae: u64,
    pub words: u64,
    pub lines: u64,
}

#[repr(C)]
#[derive(Clone, Copy)]
pub struct WriteResult {
    pub refusal: u64,
    pub place: u64,
    pub length: u64,
}

// An old Z is there where `old` is 1; its figures are the last two.
#[repr(C)]
#[derive(Clone, Copy)]
pub struct SalvageResult {
    pub refusal: u64,
    pub place: u64,
    pub length: u64,
    pub kept: u64,
    pub dropped: u64,
    pub lines: u64,
    pub sum: u64,
    pub old: u64,
    pub old_lines: u64,
    pub old_sum: u64,
}

#[repr(C)]
#[derive(Clone, Copy)]
pub struct SheetResult {
    pub refusal: u64,
    pub place: u64,
    pub length: u64,
}
