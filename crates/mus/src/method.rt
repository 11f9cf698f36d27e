// The steps of the method: size, split, start, draw, projection and judgement.
ghost use Rattle.size.specs.Size.{SizePromise};
ghost use Rattle.split.specs.Split.{SplitPromise};
ghost use Rattle.start.specs.Start.{StartPromise};
ghost use Rattle.draw.specs.Draw.{DrawPromise};
ghost use Rattle.project.specs.Project.{ProjectPromise};
ghost use Rattle.lines.specs.Each.{LinesPromise};
ghost use Rattle.judge.specs.Judge.{JudgePromise};
ghost use Rattle.results.specs.Seen.{Sees};
ghost use Rattle.results.specs.Results.{size_seen, split_seen, start_seen, draw_seen, project_seen, judge_seen};

use results::{DrawResult, JudgeResult, ProjectResult, SizeResult, SplitResult, StartResult};

// The number of draws.
#[unsafe(no_mangle)]
pub extern "C" fn mus_size(level: u8, total: u64, te: u64, ae: u64) -> SizeResult
    ensures { Sees size_seen (SizePromise level total te ae) result }
{
    size::size(level, total, te, ae).into()
}

// The split, and the marks: 2 for full, 0 for the others.
#[unsafe(no_mangle)]
pub extern "C" fn mus_split(ledger: &[u64], n: u64, marks: &mut [u8]) -> SplitResult
    ensures { Sees split_seen (λ a. SplitPromise ledger.now n marks.old a marks.new) result }
{
    split::split(ledger, n, marks).into()
}

// The random start below an interval.
#[unsafe(no_mangle)]
pub extern "C" fn mus_start(interval: u64, words: &[u64]) -> StartResult
    ensures { Sees start_seen (StartPromise interval words.now) result }
{
    start::start(interval, words).into()
}

// The draw, and the marks: 1 for drawn, 2 for full, 0 for the others.
#[unsafe(no_mangle)]
pub extern "C" fn mus_draw(ledger: &[u64], n: u64, start: u64, marks: &mut [u8]) -> DrawResult
    ensures { Sees draw_seen (λ a. DrawPromise ledger.now n start marks.old a marks.new) result }
{
    draw::draw(ledger, n, start, marks).into()
}

// The projection of the errors, each kind by itself.
#[unsafe(no_mangle)]
pub extern "C" fn mus_project(ledger: &[u64], n: u64, start: u64, errors: &[i64]) -> ProjectResult
    ensures { Sees project_seen (ProjectPromise ledger.now n start errors.now) result }
{
    project::project(ledger, n, start, errors).into()
}

// The projection of the errors, and what each line projects: its error where it is full, its amount with the error's sign where it is
// drawn, 0 elsewhere.
#[unsafe(no_mangle)]
pub extern "C" fn mus_project_lines(
    ledger: &[u64],
    n: u64,
    start: u64,
    errors: &[i64],
    amounts: &mut [i64],
) -> ProjectResult
    ensures { Sees project_seen (λ a. LinesPromise ledger.now n start errors.now amounts.old a amounts.new) result }
{
    lines::project_lines(ledger, n, start, errors, amounts).into()
}

// The judgement: the projection, and the precision, the upper limit and the verdict of its overstatements.
#[unsafe(no_mangle)]
pub extern "C" fn mus_judge(
    level: u8,
    ledger: &[u64],
    n: u64,
    start: u64,
    errors: &[i64],
    te: u64,
) -> JudgeResult
    ensures { Sees judge_seen (JudgePromise level ledger.now n start errors.now te) result }
{
    judge::judge(level, ledger, n, start, errors, te).into()
}
