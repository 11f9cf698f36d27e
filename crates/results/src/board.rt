// The answer of the projection by walking, as C sees it: in the struct of the projection. The draw's is that of the draw.
ghost use Rattle.std.specs.Prelude.{◌≡◌};
ghost use Rattle.terms.specs.Outcome.{says};
ghost use Rattle.results.specs.Walked.{board_project_seen};

use crate::{ProjectResult, head};
use blackboard::BoardProjection;
use terms::{Refusal, Told};

const NO_PROJECTION: BoardProjection = BoardProjection {
    full: 0,
    sampled: 0,
    m: 0,
    under_full: 0,
    under_sampled: 0,
    net: 0,
};

impl From<Result<BoardProjection, Refusal>> for ProjectResult {
    ghost from_gives = { λ answer r. r ≡ board_project_seen (says answer) };

    fn from(answer: Result<BoardProjection, Refusal>) -> ProjectResult {
        let Told { number, place } = head(answer);
        let projection = answer.unwrap_or(NO_PROJECTION);
        ProjectResult {
            refusal: number,
            place,
            full: projection.full,
            sampled: projection.sampled,
            m: projection.m,
            under_full: projection.under_full,
            under_sampled: projection.under_sampled,
            net: projection.net,
        }
    }
}
