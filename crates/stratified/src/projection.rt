// The projection by strata: each stratum by itself, and what they add to.
ghost use Rattle.std.specs.Prelude.{◌≡◌, length, []};
ghost use Rattle.terms.specs.Outcome.{says, left};
ghost use Rattle.strata.specs.Strata.{parts_of};
ghost use Rattle.stratified.specs.Marks.{Underway};
ghost use Rattle.stratified.specs.Projection.{projection_row, projected_from, sums_with, project_strata_of, Walked, ProjectStrataPromise};

use crate::totals::with_totals;
use project::{Entered, Projection};
use strata::Row;
use terms::{Cent, Item, Refusal};

// A stratum's draws and interval, and both sums of each kind of error; all 0 where it has no book value.
#[derive(Clone, Copy)]
pub struct ProjectionRow {
    pub draws: u64,
    pub interval: u64,
    pub full: u64,
    pub sampled: u64,
    pub under_full: u64,
    pub under_sampled: u64,
}

// How many strata there are, the projected error of each kind over all of them, the net, and their rows: all 0 past the last.
// There is no limit and no verdict: document 002 bars them with strata.
#[derive(Clone, Copy)]
pub struct ProjectedStrata {
    pub strata: u64,
    pub over: u64,
    pub under: u64,
    pub net: i64,
    pub rows: [ProjectionRow; 32],
}

// The row past the last stratum.
const NO_PROJECTION: ProjectionRow = ProjectionRow {
    draws: 0,
    interval: 0,
    full: 0,
    sampled: 0,
    under_full: 0,
    under_sampled: 0,
};

// A stratum's row, from its plan and its projection.
fn row_with(row: Row, sums: Projection) -> ProjectionRow
    ensures { result ≡ projection_row row sums }
{
    ProjectionRow {
        draws: row.draws,
        interval: row.figures.interval,
        full: sums.full,
        sampled: sums.sampled,
        under_full: sums.under_full,
        under_sampled: sums.under_sampled,
    }
}

// The strata one after another, in ledger order, so that the first line that breaks a rule refuses. A line's number is that in the whole ledger.
fn project_rows(
    ledger: &[u64],
    counts: &[u64],
    plan: [Row; 32],
    starts: &[u64],
    errors: &[i64],
) -> Result<[ProjectionRow; 32], Refusal>
    requires { Underway ledger.now counts.now plan starts.now (length errors.now) }
    ensures { Walked (projected_from 0 (parts_of counts.now ledger.now) plan starts.now (parts_of counts.now errors.now)) result }
{
    let mut none = [0u64; 0];
    let mut rows = [NO_PROJECTION; 32];
    let mut at: usize = 0;
    for (h, count) in counts.iter().enumerate() {
        let to = at + *count as usize;
        let row = plan[h];
        let entered = Entered {
            first: Item(at),
            ledger: &ledger[at..to],
            errors: &errors[at..to],
            interval: row.figures.interval,
            start: Cent(starts[h]),
        };
        let sums = entered.gather(&mut none)?;
        rows[h] = row_with(row, sums);
        at = to;
    }
    Ok(rows)
}

// The projection by strata: a row for each, and the projected error of each kind and the net over all strata.
pub fn project_strata(
    ledger: &[u64],
    counts: &[u64],
    n: u64,
    starts: &[u64],
    errors: &[i64],
) -> Result<ProjectedStrata, Refusal>
    ensures { ProjectStrataPromise (project_strata_of ledger.now counts.now n starts.now errors.now) result }
{
    let plan = strata::starts::started(ledger, counts, n, starts, errors.len())?;
    let rows = project_rows(ledger, counts, plan.rows, starts, errors)?;
    Ok(with_totals(counts.len() as u64, rows))
}

// The projection, or no strata and no row where it is refused.
pub fn projected_or_none(projected: Result<ProjectedStrata, Refusal>) -> ProjectedStrata
    ensures { result ≡ left (λ p. p) (sums_with []) (says projected) }
{
    projected.unwrap_or(ProjectedStrata {
        strata: 0,
        over: 0,
        under: 0,
        net: 0,
        rows: [NO_PROJECTION; 32],
    })
}
