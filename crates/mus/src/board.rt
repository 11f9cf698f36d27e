// The blackboard method: the draw and the projection by walking, with the arguments and the structs of the first ones.
ghost use Rattle.blackboard.specs.Draw.{BoardDrawPromise};
ghost use Rattle.blackboard.specs.Project.{BoardProjectPromise};
ghost use Rattle.results.specs.Seen.{Sees};
ghost use Rattle.results.specs.Results.{draw_seen};
ghost use Rattle.results.specs.Walked.{board_project_seen};

use results::{DrawResult, ProjectResult};

// The draw by walking, and the marks: 1 for drawn, 2 for full, 0 for the others.
#[unsafe(no_mangle)]
pub extern "C" fn mus_board_draw(ledger: &[u64], n: u64, start: u64, marks: &mut [u8]) -> DrawResult
    ensures { Sees draw_seen (λ a. BoardDrawPromise ledger.now n start marks.old a marks.new) result }
{
    blackboard::board_draw(ledger, n, start, marks).into()
}

// The projection by walking, each kind by itself.
#[unsafe(no_mangle)]
pub extern "C" fn mus_board_project(
    ledger: &[u64],
    n: u64,
    start: u64,
    errors: &[i64],
) -> ProjectResult
    ensures { Sees board_project_seen (BoardProjectPromise ledger.now n start errors.now) result }
{
    blackboard::board_project(ledger, n, start, errors).into()
}
