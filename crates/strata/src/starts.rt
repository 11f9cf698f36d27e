// The start of each stratum, against the interval of its own split.
ghost use Rattle.std.specs.Prelude.{◌≡◌, ◌≤◌, length};
ghost use Rattle.terms.specs.Outcome.{says};
ghost use Rattle.terms.specs.Limits.{most_strata};
ghost use Rattle.strata.specs.Strata.{PlanPromise};
ghost use Rattle.strata.specs.Starts.{agree, starts_from, started_of};

use crate::{Planned, Row, plan_lent};
use terms::{Cent, Refusal};

// Whether what is lent beside the ledger has its lines, and the starts are as many as the strata.
fn lengths_agree(beside: usize, lines: usize, starts: usize, strata: usize) -> bool
    ensures { result ≡ agree beside lines starts strata }
{
    beside == lines && starts == strata
}

// How many strata there are, or 11 with the first whose start does not fit its interval.
#[tactic(auto, using(crate::proofs::Starting::fitting_not, crate::proofs::Starting::fitting_next, crate::proofs::Starting::fitting_end))]
fn starts_fit(rows: [Row; 32], starts: &[u64]) -> Result<u64, Refusal>
    requires { length starts.now ≤ most_strata }
    ensures { says result ≡ starts_from 0 rows starts.now }
{
    for (h, start) in starts.iter().enumerate() {
        if !rows[h].figures.fits(Cent(*start)) {
            return Err(Refusal::StartOutOfRange(h as u64));
        }
    }
    Ok(starts.len() as u64)
}

// The plan for these starts: what the draw and the projection by strata begin with. `beside` is the length of what is lent with the ledger.
#[tactic(auto, unfolding(crate::specs::Starts::started_of))]
pub fn started(
    ledger: &[u64],
    counts: &[u64],
    n: u64,
    starts: &[u64],
    beside: usize,
) -> Result<Planned, Refusal>
    ensures { PlanPromise (started_of ledger.now counts.now n starts.now beside) result }
{
    let same = lengths_agree(beside, ledger.len(), starts.len(), counts.len());
    let plan = plan_lent(ledger, counts, n, same)?;
    starts_fit(plan.rows, starts)?;
    Ok(plan)
}
