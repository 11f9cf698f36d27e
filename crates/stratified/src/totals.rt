// What the strata's rows add to: the projected error of each kind, and the net.
ghost use Rattle.std.specs.Prelude.{◌≡◌};
ghost use Rattle.stratified.specs.Projection.{with_totals, Smalls, TotalsOf};

use crate::projection::{ProjectedStrata, ProjectionRow};

// The projected error of each kind.
#[derive(Clone, Copy)]
struct Totals {
    over: u64,
    under: u64,
}

// Both, over all strata.
fn totals_of(rows: [ProjectionRow; 32]) -> Totals
    requires { Smalls rows }
    ensures { TotalsOf rows result }
{
    let mut over: u64 = 0;
    let mut under: u64 = 0;
    for row in &rows {
        over += row.full + row.sampled;
        under += row.under_full + row.under_sampled;
    }
    Totals { over, under }
}

// So many strata's rows with what they add to.
pub fn with_totals(strata: u64, rows: [ProjectionRow; 32]) -> ProjectedStrata
    requires { Smalls rows }
    ensures { result ≡ with_totals strata rows }
{
    let Totals { over, under } = totals_of(rows);
    ProjectedStrata {
        strata,
        over,
        under,
        net: signed::net_of(over, under),
        rows,
    }
}
