// The judgement: upper limit and verdict, steps 6 and 7. Both look at overstatements alone.
#![tactic(auto)]

ghost use Rattle.std.specs.Prelude.{◌≡◌, ◌+◌, ◌^◌, ◌<◌, take};
ghost use Rattle.terms.specs.Outcome.{says};
ghost use Rattle.judge.specs.Judge.{verdict_of, concluded, judged_with, Concludable, judged_at, JudgePromise};

use factors::Level;
use project::{Entered, Projection};
use split::Book;
use terms::{Cent, Item, Refusal};

#[derive(Clone, Copy)]
pub enum Verdict {
    Below,
    Inconclusive,
    Above,
}

// The projection's answer with the precision, the upper limit and the verdict.
#[derive(Clone, Copy)]
pub struct Judgement {
    pub projection: Projection,
    pub precision: u64,
    pub upper_limit: u64,
    pub verdict: Verdict,
}

// Above when the projected error exceeds TE, below only when the upper limit is less than TE, otherwise inconclusive.
#[tactic(auto, unfolding(crate::specs::Judge::verdict_of))]
fn verdict_of(te: u64, projected: u64, limit: u64) -> Verdict
    ensures { result ≡ verdict_of te projected limit }
{
    if projected > te {
        return Verdict::Above;
    }
    if limit < te {
        return Verdict::Below;
    }
    Verdict::Inconclusive
}

// The upper limit is both sums of the overstatements and the precision.
fn conclude(te: u64, projection: Projection, precision: u64) -> Judgement
    requires { projection.full + projection.sampled + precision < 2 ^ 64 }
    ensures { result ≡ concluded te projection precision }
{
    let projected = projection.full + projection.sampled;
    let upper_limit = projected + precision;
    Judgement {
        projection,
        precision,
        upper_limit,
        verdict: verdict_of(te, projected, upper_limit),
    }
}

// Precision, upper limit and verdict, from a projection and its amounts, the first m of a list, which fall; or 16.
pub fn judge_amounts(
    level: Level,
    interval: u64,
    te: u64,
    projection: Projection,
    amounts: &[u64],
) -> Result<Judgement, Refusal>
    requires { Concludable interval projection amounts.now }
    ensures { says result ≡ judged_with level te interval projection (take projection.m amounts.now) }
{
    let m = projection.m as usize;
    if m > terms::MOST_ERRORS {
        return Err(Refusal::TooManyErrors);
    }
    let precision = precision::precision(level, interval, &amounts[..m]);
    Ok(conclude(te, projection, precision))
}

// 14 and 15 line by line, then what follows from the amounts, at an interval and a start.
fn judge_lines(level: Level, entered: Entered, te: u64) -> Result<Judgement, Refusal>
    requires { entered.first.0 ≡ 0 }
    ensures { says result ≡ judged_at level entered.entry.ledger.now entered.entry.start.0 entered.entry.errors.now te entered.entry.interval }
{
    let mut amounts = [0u64; terms::MOST_ERRORS];
    let projection = entered.gather(&mut amounts)?;
    judge_amounts(level, entered.interval, te, projection, &amounts)
}

// The judgement, with its refusals in the documents' order: 1, the ledger's, 6, 8, 11, 14 and 15, 16. The level is a byte, since 1 is for one that names none.
#[tactic(auto, using(crate::proofs::Answer::judged), unfolding(crate::specs::Judge::judge_of, crate::specs::Judge::judged_ledger, crate::specs::Judge::judged_figures))]
pub fn judge(
    level: u8,
    ledger: &[u64],
    n: u64,
    start: u64,
    errors: &[i64],
    te: u64,
) -> Result<Judgement, Refusal>
    ensures { JudgePromise level ledger.now n start errors.now te result }
{
    let level = Level::from_percent(level)?;
    let total = ledger::judge_ledger(ledger, errors.len())?;
    if te == 0 || te > total {
        return Err(Refusal::ToleranceOutOfRange);
    }
    let start = Cent(start);
    let book = Book {
        lines: ledger,
        total,
    };
    let figures = book.figures_at(n, start)?;
    let entered = Entered {
        first: Item(0),
        ledger,
        errors,
        interval: figures.interval,
        start,
    };
    judge_lines(level, entered, te)
}
