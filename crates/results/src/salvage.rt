// The answer of the salvage, as C sees it.
ghost use Rattle.std.specs.Prelude.{◌≡◌};
ghost use Rattle.terms.specs.Outcome.{says};
ghost use Rattle.results.specs.Salvage.{salvage_seen};

use crate::{SalvageResult, head};
use salvaging::{OldEnd, Salvaged};
use terms::{Refusal, Told};

const NOTHING_SALVAGED: Salvaged = Salvaged {
    length: 0,
    kept: 0,
    dropped: 0,
    lines: 0,
    sum: 0,
    old: None,
};

const NO_END: OldEnd = OldEnd { count: 0, sum: 0 };

impl From<Result<Salvaged, Refusal>> for SalvageResult {
    ghost from_gives = { λ answer r. r ≡ salvage_seen (says answer) };

    #[tactic(auto, unfolding(crate::specs::Salvage::old_there, crate::specs::Salvage::old_count, crate::specs::Salvage::old_sum))]
    fn from(answer: Result<Salvaged, Refusal>) -> SalvageResult {
        let Told { number, place } = head(answer);
        let salvaged = answer.unwrap_or(NOTHING_SALVAGED);
        let end = salvaged.old.unwrap_or(NO_END);
        SalvageResult {
            refusal: number,
            place,
            length: salvaged.length,
            kept: salvaged.kept,
            dropped: salvaged.dropped,
            lines: salvaged.lines,
            sum: salvaged.sum,
            old: salvaged.old.is_some() as u64,
            old_lines: end.count,
            old_sum: end.sum,
        }
    }
}
