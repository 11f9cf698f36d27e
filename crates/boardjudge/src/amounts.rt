// The overstated amounts of the drawn lines, sorted, while the walk goes on beside the lines.
ghost use Rattle.std.specs.Prelude.{◌≡◌, ◌+◌, ◌<◌, take};
ghost use Rattle.terms.specs.Limits.{most_lines};
ghost use Rattle.signed.specs.declared.Part.TheVariants.{Overstated};
ghost use Rattle.sorting.specs.Sorting.{Sorted};
ghost use Rattle.project.specs.Lines.{count_part};
ghost use Rattle.project.specs.Project.{lines_with};
ghost use Rattle.project.specs.Gather.{kept_by, kept_from};
ghost use Rattle.boardjudge.specs.Marked.{Walkable};

use crate::marked_line;
use blackboard::Board;
use blackboard::sums::mark_where;
use project::{Line, State};
use terms::Cent;

// Puts the amount of a drawn line with an error above 0 in its place among the m before it, while there is room, and answers how many there are
// with it. No step is shared with the first method's `keep`.
#[tactic(auto, unfolding(project::specs::Gather::kept_by))]
fn keep(amounts: &mut [u64], m: usize, line: Line) -> usize
    requires { Sorted (take m amounts.old) × (m < most_lines) }
    ensures { (amounts.new ≡ kept_by amounts.old m line.state line.error) × (result ≡ m + count_part line.state line.error) }
{
    match line.state {
        State::Drawn(amount) if line.error > 0 => {
            sorting::insert_down(amounts, m, amount);
            m + 1
        }
        _ => m,
    }
}

// The amounts of all lines, by the walk.
pub fn collect(board: Board, start: Cent, errors: &[i64], amounts: &mut [u64])
    requires { Walkable board.interval start.0 board.ledger.now errors.now }
    ensures { amounts.new ≡ kept_from (lines_with Overstated board.entry.interval start.0 board.entry.ledger.now errors.now) 0 amounts.old }
{
    let mut at = board.walker_at(start.0);
    let mut m: usize = 0;
    for (item, value) in board.ledger.iter().enumerate() {
        let mark = mark_where(*value, board.interval, item, at.stop);
        let error = signed::overstated_of(errors[item]);
        m = keep(amounts, m, marked_line(*value, error, board.interval, mark));
        at = board.walk_on(at, item);
    }
}
