// A ledger by strata: plan, draw and projection.
ghost use Rattle.std.specs.Prelude.{true};
ghost use Rattle.strata.specs.Strata.{plan_of, PlanPromise};
ghost use Rattle.stratified.specs.Marks.{DrawStrataPromise};
ghost use Rattle.stratified.specs.Projection.{project_strata_of, ProjectStrataPromise};
ghost use Rattle.results.specs.Seen.{Sees};
ghost use Rattle.results.specs.Strata.{strata_plan_seen, strata_draw_seen, strata_project_seen};

use results::{StrataDrawResult, StrataPlanResult, StrataProjectResult};

// Each stratum's draws, and its own split.
#[unsafe(no_mangle)]
pub extern "C" fn mus_strata_plan(ledger: &[u64], counts: &[u64], n: u64) -> StrataPlanResult
    ensures { Sees strata_plan_seen (PlanPromise (plan_of ledger.now counts.now n true)) result }
{
    strata::plan(ledger, counts, n).into()
}

// The draw of each stratum, and the marks of the whole ledger.
#[unsafe(no_mangle)]
pub extern "C" fn mus_strata_draw(
    ledger: &[u64],
    counts: &[u64],
    n: u64,
    starts: &[u64],
    marks: &mut [u8],
) -> StrataDrawResult
    ensures { Sees strata_draw_seen (λ a. DrawStrataPromise ledger.now counts.now n starts.now marks.old a marks.new) result }
{
    stratified::marks::draw_strata(ledger, counts, n, starts, marks).into()
}

// The projection of each stratum, and over all of them.
#[unsafe(no_mangle)]
pub extern "C" fn mus_strata_project(
    ledger: &[u64],
    counts: &[u64],
    n: u64,
    starts: &[u64],
    errors: &[i64],
) -> StrataProjectResult
    ensures { Sees strata_project_seen (ProjectStrataPromise (project_strata_of ledger.now counts.now n starts.now errors.now)) result }
{
    stratified::projection::project_strata(ledger, counts, n, starts, errors).into()
}
