// Every operation, called: its answer in the one shape that the test programs print, by the struct that C sees of it.
#![tactic(auto)]

ghost use Rattle.std.specs.Prelude.{◌≤◌, length};

use answers::{Answer, Rest};
use results::{
    AttributeBoundResult, AttributeSizeResult, DrawResult, JudgeResult, PostResult, ProjectResult,
    SizeResult, SplitResult, StartResult, StrataDrawResult, StrataPlanResult, StrataProjectResult,
    TallyResult,
};
use season::Tally;

pub mod board; // board.rt: the blackboard method
pub mod file; // file.rt: the working file and its salvage
pub mod summary; // summary.rt: totals beside the ledger

// An answer of these figures, at most five, and of what follows them.
fn told(refusal: u64, place: u64, found: &[u64], rest: Rest) -> Answer
    requires { length found.now ≤ 5 }
{
    let mut figures = [0; 5];
    figures[..found.len()].copy_from_slice(found);
    Answer {
        refusal,
        place,
        figures,
        count: found.len(),
        rest,
    }
}

// An answer of figures alone.
fn answer(refusal: u64, place: u64, found: &[u64]) -> Answer
    requires { length found.now ≤ 5 }
{
    told(refusal, place, found, Rest::Nothing)
}

pub fn size(level: u8, total: u64, te: u64, ae: u64) -> Answer {
    let r = SizeResult::from(size::size(level, total, te, ae));
    answer(r.refusal, r.place, &[r.draws])
}

fn of_split(r: SplitResult) -> Answer {
    let figures = [
        r.interval,
        r.draws_left,
        r.sampled_total,
        r.full_lines,
        r.full_total,
    ];
    answer(r.refusal, r.place, &figures)
}

pub fn split(ledger: &[u64], n: u64, marks: &mut [u8]) -> Answer {
    of_split(split::split(ledger, n, marks).into())
}

// The split's figures, without marks.
pub fn split_figures(ledger: &[u64], n: u64) -> Answer {
    of_split(split::split_figures(ledger, n, ledger.len()).into())
}

pub fn start(interval: u64, words: &[u64]) -> Answer {
    let r = StartResult::from(start::start(interval, words));
    answer(r.refusal, r.place, &[r.start, r.words])
}

fn of_draw(r: DrawResult) -> Answer {
    answer(r.refusal, r.place, &[r.drawn])
}

pub fn draw(ledger: &[u64], n: u64, start: u64, marks: &mut [u8]) -> Answer {
    of_draw(draw::draw(ledger, n, start, marks).into())
}

fn of_project(r: ProjectResult) -> Answer {
    let figures = [r.full, r.sampled, r.m, r.under_full, r.under_sampled];
    told(r.refusal, r.place, &figures, Rest::Net(r.net))
}

pub fn project(ledger: &[u64], n: u64, start: u64, errors: &[i64]) -> Answer {
    of_project(project::project(ledger, n, start, errors).into())
}

pub fn project_lines(
    ledger: &[u64],
    n: u64,
    start: u64,
    errors: &[i64],
    amounts: &mut [i64],
) -> Answer {
    of_project(lines::project_lines(ledger, n, start, errors, amounts).into())
}

pub fn judge(level: u8, ledger: &[u64], n: u64, start: u64, errors: &[i64], te: u64) -> Answer {
    let r = JudgeResult::from(judge::judge(level, ledger, n, start, errors, te));
    let figures = [r.full, r.sampled, r.m, r.under_full, r.under_sampled];
    told(
        r.refusal,
        r.place,
        &figures,
        Rest::Judged(r.net, r.precision, r.upper_limit, r.verdict),
    )
}

// The plan by strata, with its rows; its answer without them.
pub fn strata_plan(ledger: &[u64], counts: &[u64], n: u64) -> StrataPlanResult {
    strata::plan(ledger, counts, n).into()
}

pub fn of_strata_plan(r: StrataPlanResult) -> Answer {
    answer(r.refusal, r.place, &[r.strata])
}

pub fn strata_draw(
    ledger: &[u64],
    counts: &[u64],
    n: u64,
    starts: &[u64],
    marks: &mut [u8],
) -> Answer {
    let r: StrataDrawResult = stratified::marks::draw_strata(
        ledger, counts, n, starts, marks,
    ).into();
    answer(r.refusal, r.place, &[r.drawn])
}

// The projection by strata, with its rows; its answer without them.
pub fn strata_project(
    ledger: &[u64],
    counts: &[u64],
    n: u64,
    starts: &[u64],
    errors: &[i64],
) -> StrataProjectResult {
    stratified::projection::project_strata(ledger, counts, n, starts, errors).into()
}

pub fn of_strata_project(r: StrataProjectResult) -> Answer {
    told(
        r.refusal,
        r.place,
        &[r.strata, r.over, r.under],
        Rest::Net(r.net),
    )
}

// One judgement more in the tally of a season, with the tally; its answer without the counts.
pub fn tally_add(tally: Tally, level: u8, book: u64, limit: u64, verdict: u64) -> TallyResult {
    results::tally::add(tally, level, book, limit, verdict).into()
}

pub fn of_tally(r: TallyResult) -> Answer {
    let tally = r.tally;
    let figures = [
        tally.books,
        tally.limits,
        tally.refused,
        tally.added,
        tally.worst,
    ];
    answer(r.refusal, r.place, &figures)
}

// The attribute job aid.
pub fn attribute_size(level: u8, tolerance: u8) -> Answer {
    let r = AttributeSizeResult::from(attributes::size(level, tolerance));
    answer(r.refusal, r.place, &[r.items])
}

pub fn attribute_bound(level: u8, tolerance: u8, exceptions: u64) -> Answer {
    let r = AttributeBoundResult::from(attributes::bound(level, tolerance, exceptions));
    answer(r.refusal, r.place, &[r.hundredths])
}

// One finding, and findings by the batch.
fn of_post(r: PostResult) -> Answer {
    answer(r.refusal, r.place, &[r.posted])
}

pub fn post(ledger: &[u64], marks: &[u8], errors: &mut [i64], line: u64, error: i64) -> Answer {
    of_post(findings::post(ledger, marks, errors, line, error).into())
}

pub fn post_all(
    ledger: &[u64],
    marks: &[u8],
    errors: &mut [i64],
    lines: &[u64],
    found: &[i64],
) -> Answer {
    of_post(findings::post_all(ledger, marks, errors, lines, found).into())
}

// Two teams on one ledger: the same by the acting team's own bits.
pub fn team_split(team: u8, ledger: &[u64], n: u64, marks: &mut [u8]) -> Answer {
    of_split(teams::team_split(team, ledger, n, marks).into())
}

pub fn team_draw(team: u8, ledger: &[u64], n: u64, start: u64, marks: &mut [u8]) -> Answer {
    of_draw(teams::team_draw(team, ledger, n, start, marks).into())
}

pub fn team_post(
    team: u8,
    ledger: &[u64],
    marks: &[u8],
    errors: &mut [i64],
    line: u64,
    error: i64,
) -> Answer {
    of_post(teams::team_post(team, ledger, marks, errors, line, error).into())
}

pub fn team_post_all(
    team: u8,
    ledger: &[u64],
    marks: &[u8],
    errors: &mut [i64],
    lines: &[u64],
    found: &[i64],
) -> Answer {
    of_post(teams::team_post_all(team, ledger, marks, errors, lines, found).into())
}
