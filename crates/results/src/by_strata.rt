// The answers of the operations by strata, as C sees them.
ghost use Rattle.std.specs.Prelude.{◌≡◌, map};
ghost use Rattle.terms.specs.Outcome.{says};
ghost use Rattle.results.specs.Strata.{stratum_plan_seen, strata_plan_seen, strata_draw_seen, stratum_projection_seen, strata_project_seen};

use crate::{
    StrataDrawResult, StrataPlanResult, StrataProjectResult, StratumPlan, StratumProjection, head,
};
use strata::{Planned, Row};
use stratified::projection::{ProjectedStrata, ProjectionRow};
use terms::{Refusal, Told};

impl From<Row> for StratumPlan {
    ghost from_gives = { λ row r. r ≡ stratum_plan_seen row };

    fn from(row: Row) -> StratumPlan {
        StratumPlan {
            draws: row.draws,
            interval: row.figures.interval,
            draws_left: row.figures.draws_left,
            sampled_total: row.figures.sampled_total,
            full_lines: row.figures.full_lines,
            full_total: row.figures.full_total,
        }
    }
}

// The rows, as C is given them: an array of its own structs, all 32.
#[tactic(auto, using(crate::proofs::Rows::showing_none, crate::proofs::Rows::showing_next, crate::proofs::Rows::showing_end))]
fn of_rows(rows: [Row; 32]) -> [StratumPlan; 32]
    ensures { result ≡ map stratum_plan_seen rows }
{
    let mut shown = [StratumPlan::from(rows[0]); 32];
    for (h, row) in rows.iter().enumerate() {
        shown[h] = StratumPlan::from(*row);
    }
    shown
}

impl From<ProjectionRow> for StratumProjection {
    ghost from_gives = { λ row r. r ≡ stratum_projection_seen row };

    fn from(row: ProjectionRow) -> StratumProjection {
        StratumProjection {
            draws: row.draws,
            interval: row.interval,
            full: row.full,
            sampled: row.sampled,
            under_full: row.under_full,
            under_sampled: row.under_sampled,
        }
    }
}

// The same for a projection's rows.
#[tactic(auto, using(crate::proofs::Rows::showing_none, crate::proofs::Rows::showing_next, crate::proofs::Rows::showing_end))]
fn of_projections(rows: [ProjectionRow; 32]) -> [StratumProjection; 32]
    ensures { result ≡ map stratum_projection_seen rows }
{
    let mut shown = [StratumProjection::from(rows[0]); 32];
    for (h, row) in rows.iter().enumerate() {
        shown[h] = StratumProjection::from(*row);
    }
    shown
}

impl From<Result<Planned, Refusal>> for StrataPlanResult {
    ghost from_gives = { λ answer r. r ≡ strata_plan_seen (says answer) };

    fn from(answer: Result<Planned, Refusal>) -> StrataPlanResult {
        let Told { number, place } = head(answer);
        let planned = strata::plan_or_none(answer);
        StrataPlanResult {
            refusal: number,
            place,
            strata: planned.strata,
            stratum: of_rows(planned.rows),
        }
    }
}

impl From<Result<u64, Refusal>> for StrataDrawResult {
    ghost from_gives = { λ answer r. r ≡ strata_draw_seen (says answer) };

    fn from(answer: Result<u64, Refusal>) -> StrataDrawResult {
        let Told { number, place } = head(answer);
        StrataDrawResult {
            refusal: number,
            place,
            drawn: answer.unwrap_or(0),
        }
    }
}

impl From<Result<ProjectedStrata, Refusal>> for StrataProjectResult {
    ghost from_gives = { λ answer r. r ≡ strata_project_seen (says answer) };

    fn from(answer: Result<ProjectedStrata, Refusal>) -> StrataProjectResult {
        let Told { number, place } = head(answer);
        let projected = stratified::projection::projected_or_none(answer);
        StrataProjectResult {
            refusal: number,
            place,
            over: projected.over,
            under: projected.under,
            net: projected.net,
            strata: projected.strata,
            stratum: of_projections(projected.rows),
        }
    }
}
