// The blackboard method, request K12: the draw and the projection as a teacher walks them, counting lines off from the first for each point.
#![tactic(auto)]

pub mod points; // points.rt: counting off to a point, and the marks
pub mod sums; // sums.rt: the lines added up by their marks

ghost use Rattle.std.specs.Prelude.{◌≡◌};
ghost use Rattle.terms.specs.Outcome.{says};
ghost use Rattle.blackboard.specs.Draw.{walk_start, BoardFiguresPromise, BoardDrawPromise};
ghost use Rattle.blackboard.specs.Project.{BoardProjectPromise};
ghost use Rattle.blackboard.specs.Steps.{OnBoard};

use split::Figures;
use terms::{Cent, Refusal};

// A ledger's lines and the interval of their split.
#[derive(Clone, Copy)]
pub struct Board<'a> {
    pub ledger: &'a [u64],
    pub interval: u64,
    pub ghost on: { OnBoard interval ledger.now },
}

// Of one kind of error: the full lines' errors, the drawn lines' amounts, and the number of drawn lines with an error.
// The method's own: K12 of document 02 has it share nothing with the first method but the split, and what both share besides is arithmetic.
#[derive(Clone, Copy)]
pub struct BoardSums {
    pub full: u64,
    pub sampled: u64,
    pub m: u64,
}

// The sums of each kind.
#[derive(Clone, Copy)]
pub struct BoardKinds {
    pub over: BoardSums,
    pub under: BoardSums,
}

// The sums of the overstatements and their m, those of the understatements as sizes, and the net with its sign.
// The method's own too.
#[derive(Clone, Copy)]
pub struct BoardProjection {
    pub full: u64,
    pub sampled: u64,
    pub m: u64,
    pub under_full: u64,
    pub under_sampled: u64,
    pub net: i64,
}

// A drawing point, and the line at which counting off to it stops.
#[derive(Clone, Copy)]
pub struct Walker {
    pub point: u64,
    pub stop: usize,
}

// The figures, or 11 where no walk begins at the start.
#[tactic(auto, unfolding(crate::specs::Draw::walk_start))]
fn walk_start(start: Cent, figures: Figures) -> Result<Figures, Refusal>
    ensures { says result ≡ walk_start start.0 figures }
{
    if start.0 == 0 || start.0 < figures.interval {
        return Ok(figures);
    }
    Err(Refusal::StartOutOfRange(0))
}

// The split's figures, or the first refusal, 11 last. `beside` is the length of the buffer that is lent with the ledger.
#[tactic(auto, unfolding(crate::specs::Draw::board_figures))]
fn board_figures(ledger: &[u64], n: u64, start: Cent, beside: usize) -> Result<Figures, Refusal>
    ensures { BoardFiguresPromise ledger.now n start.0 beside result }
{
    walk_start(start, split::split_figures(ledger, n, beside)?)
}

// The draw by walking: how many lines it marks 1, and the marks, which a refusal leaves as they were.
#[tactic(auto, unfolding(crate::specs::Draw::board_draw_of))]
pub fn board_draw(ledger: &[u64], n: u64, start: u64, marks: &mut [u8]) -> Result<u64, Refusal>
    ensures { BoardDrawPromise ledger.now n start marks.old result marks.new }
{
    let first = Cent(start);
    let figures = board_figures(ledger, n, first, marks.len())?;
    let board = Board {
        ledger,
        interval: figures.interval,
    };
    Ok(board.mark_lines(first, marks))
}

// The projection by walking: both kinds' sums, m and the net, or the first refusal.
#[tactic(auto, unfolding(crate::specs::Project::board_project_of))]
pub fn board_project(
    ledger: &[u64],
    n: u64,
    start: u64,
    errors: &[i64],
) -> Result<BoardProjection, Refusal>
    ensures { BoardProjectPromise ledger.now n start errors.now result }
{
    let first = Cent(start);
    let figures = board_figures(ledger, n, first, errors.len())?;
    let board = Board {
        ledger,
        interval: figures.interval,
    };
    board.add_up(first, errors)
}
