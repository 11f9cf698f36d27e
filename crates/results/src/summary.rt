// The answers of the totals beside the ledger, as C sees them.
ghost use Rattle.std.specs.Prelude.{◌≡◌};
ghost use Rattle.terms.specs.Outcome.{says};
ghost use Rattle.results.specs.Totals.{totals_build_seen, totals_total_seen, totals_find_seen, totals_change_seen, totals_append_seen, totals_check_seen};

use crate::{
    TotalsAppendResult, TotalsBuildResult, TotalsChangeResult, TotalsCheckResult, TotalsFindResult,
    TotalsTotalResult, head,
};
use terms::{Item, Refusal, Told};

impl From<Result<u64, Refusal>> for TotalsBuildResult {
    ghost from_gives = { λ answer r. r ≡ totals_build_seen (says answer) };

    fn from(answer: Result<u64, Refusal>) -> TotalsBuildResult {
        let Told { number, place } = head(answer);
        TotalsBuildResult {
            refusal: number,
            place,
            total: answer.unwrap_or(0),
        }
    }
}

impl From<Result<u64, Refusal>> for TotalsTotalResult {
    ghost from_gives = { λ answer r. r ≡ totals_total_seen (says answer) };

    fn from(answer: Result<u64, Refusal>) -> TotalsTotalResult {
        let Told { number, place } = head(answer);
        TotalsTotalResult {
            refusal: number,
            place,
            total: answer.unwrap_or(0),
        }
    }
}

impl From<Result<Item, Refusal>> for TotalsFindResult {
    ghost from_gives = { λ answer r. r ≡ totals_find_seen (says answer) };

    fn from(answer: Result<Item, Refusal>) -> TotalsFindResult {
        let Told { number, place } = head(answer);
        TotalsFindResult {
            refusal: number,
            place,
            line: answer.unwrap_or(Item(0)).0 as u64,
        }
    }
}

impl From<Result<u64, Refusal>> for TotalsChangeResult {
    ghost from_gives = { λ answer r. r ≡ totals_change_seen (says answer) };

    fn from(answer: Result<u64, Refusal>) -> TotalsChangeResult {
        let Told { number, place } = head(answer);
        TotalsChangeResult {
            refusal: number,
            place,
            total: answer.unwrap_or(0),
        }
    }
}

impl From<Result<usize, Refusal>> for TotalsAppendResult {
    ghost from_gives = { λ answer r. r ≡ totals_append_seen (says answer) };

    fn from(answer: Result<usize, Refusal>) -> TotalsAppendResult {
        let Told { number, place } = head(answer);
        TotalsAppendResult {
            refusal: number,
            place,
            count: answer.unwrap_or(0) as u64,
        }
    }
}

// Wrong is 1 with the first wrong block, and 0 where there is none.
impl From<Result<Option<u64>, Refusal>> for TotalsCheckResult {
    ghost from_gives = { λ answer r. r ≡ totals_check_seen (says answer) };

    fn from(answer: Result<Option<u64>, Refusal>) -> TotalsCheckResult {
        let Told { number, place } = head(answer);
        let wrong = answer.unwrap_or(None);
        TotalsCheckResult {
            refusal: number,
            place,
            wrong: wrong.is_some() as u64,
            block: wrong.unwrap_or(0),
        }
    }
}
