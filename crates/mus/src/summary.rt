// Totals beside the ledger: the summary built, kept right, asked and checked.
ghost use Rattle.totals.specs.Summary.{BuildPromise, TotalPromise};
ghost use Rattle.totals.specs.Lookup.{FindPromise};
ghost use Rattle.totals.specs.Comparison.{CheckPromise};
ghost use Rattle.upkeep.specs.Upkeep.{ChangePromise, AppendPromise};
ghost use Rattle.results.specs.Seen.{Sees};
ghost use Rattle.results.specs.Totals.{totals_build_seen, totals_total_seen, totals_find_seen, totals_change_seen, totals_append_seen, totals_check_seen};

use results::{
    TotalsAppendResult, TotalsBuildResult, TotalsChangeResult, TotalsCheckResult, TotalsFindResult,
    TotalsTotalResult,
};
use terms::{Cent, Item};

// Writes the summary of the lines in use; the grand total.
#[unsafe(no_mangle)]
pub extern "C" fn mus_totals_build(
    room: &[u64],
    count: usize,
    summary: &mut [u64],
) -> TotalsBuildResult
    ensures { Sees totals_build_seen (λ a. BuildPromise room.now count summary.old a summary.new) result }
{
    totals::build(room, count, summary).into()
}

// The grand total as it stands.
#[unsafe(no_mangle)]
pub extern "C" fn mus_totals_total(room: &[u64], count: usize, summary: &[u64]) -> TotalsTotalResult
    ensures { Sees totals_total_seen (TotalPromise room.now count summary.now) result }
{
    totals::total(room, count, summary).into()
}

// The line of the whole, unsplit ledger that holds a cent.
#[unsafe(no_mangle)]
pub extern "C" fn mus_totals_find(
    room: &[u64],
    count: usize,
    summary: &[u64],
    cent: u64,
) -> TotalsFindResult
    ensures { Sees totals_find_seen (FindPromise room.now count summary.now cent) result }
{
    totals::find(room, count, summary, Cent(cent)).into()
}

// A new value for a line in use; the new grand total.
#[unsafe(no_mangle)]
pub extern "C" fn mus_totals_change(
    room: &mut [u64],
    count: usize,
    summary: &mut [u64],
    line: usize,
    value: u64,
) -> TotalsChangeResult
    ensures { Sees totals_change_seen (λ a. ChangePromise room.old count summary.old line value a room.new summary.new) result }
{
    upkeep::change(room, count, summary, Item(line), value).into()
}

// One line more, after those in use; the new count.
#[unsafe(no_mangle)]
pub extern "C" fn mus_totals_append(
    room: &mut [u64],
    count: usize,
    summary: &mut [u64],
    value: u64,
) -> TotalsAppendResult
    ensures { Sees totals_append_seen (λ a. AppendPromise room.old count summary.old value a room.new summary.new) result }
{
    upkeep::append(room, count, summary, value).into()
}

// Whether the summary agrees with its ledger, or the first wrong block.
#[unsafe(no_mangle)]
pub extern "C" fn mus_totals_check(room: &[u64], count: usize, summary: &[u64]) -> TotalsCheckResult
    ensures { Sees totals_check_seen (CheckPromise room.now count summary.now) result }
{
    totals::check(room, count, summary).into()
}
