// The judgement by the blackboard method, request K12: projection and amounts by walking, and what follows from them as in the first judgement.
#![tactic(auto)]

mod amounts; // amounts.rt: the amounts of the drawn lines

ghost use Rattle.std.specs.Prelude.{◌≡◌};
ghost use Rattle.terms.specs.Outcome.{says};
ghost use Rattle.project.specs.Project.{Ready};
ghost use Rattle.judge.specs.Judge.{judged_at, JudgePromise};
ghost use Rattle.sameboard.specs.Same.{as_projection};
ghost use Rattle.boardjudge.specs.Marked.{marked_line, MarkFits};

use crate::amounts::collect;
use blackboard::{Board, BoardProjection};
use factors::Level;
use judge::Judgement;
use project::{Line, Projection, State};
use split::Book;
use terms::{Cent, Refusal};

// A line with the state that its mark says: 2 full, 1 drawn with its amount, 0 neither.
#[tactic(auto, unfolding(blackboard::specs::Project::board_amount, project::specs::Lines::amount))]
pub fn marked_line(value: u64, error: u64, interval: u64, mark: u8) -> Line
    requires { MarkFits interval value error mark }
    ensures { result ≡ marked_line interval value error mark }
{
    let state = match mark {
        2 => State::Full,
        1 => State::Drawn(blackboard::sums::board_amount(value, error, interval)),
        _ => State::NotDrawn,
    };
    Line {
        value,
        error,
        state,
    }
}

// Figure by figure, the walk's projection as the judgement takes it. No `From`: both types are of other crates.
fn as_projection(p: BoardProjection) -> Projection
    ensures { result ≡ as_projection p }
{
    Projection {
        full: p.full,
        sampled: p.sampled,
        m: p.m,
        under_full: p.under_full,
        under_sampled: p.under_sampled,
        net: p.net,
    }
}

// 14 and 15 line by line, then what follows from the amounts, at a start.
fn judge_lines(
    level: Level,
    board: Board,
    start: Cent,
    errors: &[i64],
    te: u64,
) -> Result<Judgement, Refusal>
    requires { Ready 0 board.interval start.0 board.ledger.now errors.now }
    ensures { says result ≡ judged_at level board.entry.ledger.now start.0 errors.now te board.entry.interval }
{
    let walked = board.add_up(start, errors)?;
    let mut amounts = [0u64; terms::MOST_ERRORS];
    collect(board, start, errors, &mut amounts);
    judge::judge_amounts(level, board.interval, te, as_projection(walked), &amounts)
}

// The judgement by walking: the promise is that of the first judgement, with its refusals in the same order.
#[tactic(auto, using(judge::proofs::Answer::judged), unfolding(judge::specs::Judge::judge_of, judge::specs::Judge::judged_ledger, judge::specs::Judge::judged_figures))]
pub fn judge(
    level: u8,
    ledger: &[u64],
    n: u64,
    start: u64,
    errors: &[i64],
    te: u64,
) -> Result<Judgement, Refusal>
    ensures { JudgePromise level ledger.now n start errors.now te result }
{
    let level = Level::from_percent(level)?;
    let total = ledger::judge_ledger(ledger, errors.len())?;
    if te == 0 || te > total {
        return Err(Refusal::ToleranceOutOfRange);
    }
    let start = Cent(start);
    let book = Book {
        lines: ledger,
        total,
    };
    let figures = book.figures_at(n, start)?;
    let board = Board {
        ledger,
        interval: figures.interval,
    };
    judge_lines(level, board, start, errors, te)
}
