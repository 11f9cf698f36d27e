// The answers of the attribute job aid for control tests, as C sees them.
ghost use Rattle.std.specs.Prelude.{◌≡◌};
ghost use Rattle.terms.specs.Outcome.{says};
ghost use Rattle.results.specs.Control.{items_seen, bound_seen};

use crate::{AttributeBoundResult, AttributeSizeResult, head};
use terms::{Refusal, Told};

impl From<Result<u64, Refusal>> for AttributeSizeResult {
    ghost from_gives = { λ answer r. r ≡ items_seen (says answer) };

    fn from(answer: Result<u64, Refusal>) -> AttributeSizeResult {
        let Told { number, place } = head(answer);
        AttributeSizeResult {
            refusal: number,
            place,
            items: answer.unwrap_or(0),
        }
    }
}

impl From<Result<u64, Refusal>> for AttributeBoundResult {
    ghost from_gives = { λ answer r. r ≡ bound_seen (says answer) };

    fn from(answer: Result<u64, Refusal>) -> AttributeBoundResult {
        let Told { number, place } = head(answer);
        AttributeBoundResult {
            refusal: number,
            place,
            hundredths: answer.unwrap_or(0),
        }
    }
}
