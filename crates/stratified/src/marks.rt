// The draw by strata: each stratum is drawn in its own part of the marks.
ghost use Rattle.std.specs.Prelude.{length};
ghost use Rattle.strata.specs.Strata.{parts_of};
ghost use Rattle.stratified.specs.Marks.{Underway, MarkedStrata, DrawStrataPromise};

use strata::Row;
use terms::{Cent, Refusal};

// Marks every stratum at its own interval and start, and answers how many lines are drawn.
// The lists stay apart: no struct of three loans of their own lifetimes is proved here.
fn mark_strata(
    ledger: &[u64],
    counts: &[u64],
    rows: [Row; 32],
    starts: &[u64],
    marks: &mut [u8],
) -> u64
    requires { Underway ledger.now counts.now rows starts.now (length marks.old) }
    ensures { MarkedStrata (parts_of counts.now ledger.now) rows starts.now result marks.new }
{
    let mut drawn: u64 = 0;
    let mut at: usize = 0;
    for (h, count) in counts.iter().enumerate() {
        let to = at + *count as usize;
        let interval = rows[h].figures.interval;
        let start = Cent(starts[h]);
        drawn += draw::mark_lines(&ledger[at..to], interval, start, &mut marks[at..to]);
        at = to;
    }
    drawn
}

// The draw by strata: how many lines it marks 1, and the marks of the whole ledger, which a refusal leaves as they were.
pub fn draw_strata(
    ledger: &[u64],
    counts: &[u64],
    n: u64,
    starts: &[u64],
    marks: &mut [u8],
) -> Result<u64, Refusal>
    ensures { DrawStrataPromise ledger.now counts.now n starts.now marks.old result marks.new }
{
    let plan = strata::starts::started(ledger, counts, n, starts, marks.len())?;
    Ok(mark_strata(ledger, counts, plan.rows, starts, marks))
}
