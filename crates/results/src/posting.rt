// The answers of posting findings, singly or by the batch, as C sees them.
ghost use Rattle.std.specs.Prelude.{◌≡◌};
ghost use Rattle.terms.specs.Outcome.{says};
ghost use Rattle.results.specs.Findings.{post_seen};

use crate::{PostResult, head};
use terms::{Refusal, Told};

impl From<Result<u64, Refusal>> for PostResult {
    ghost from_gives = { λ answer r. r ≡ post_seen (says answer) };

    fn from(answer: Result<u64, Refusal>) -> PostResult {
        let Told { number, place } = head(answer);
        PostResult {
            refusal: number,
            place,
            posted: answer.unwrap_or(0),
        }
    }
}
