// Totals beside the ledger.
use crate::answer;
use answers::Answer;
use results::{
    TotalsAppendResult, TotalsBuildResult, TotalsChangeResult, TotalsCheckResult, TotalsFindResult,
    TotalsTotalResult,
};
use terms::{Cent, Item};

pub fn totals_build(room: &[u64], count: u64, summary: &mut [u64]) -> Answer {
    let r = TotalsBuildResult::from(totals::build(room, count as usize, summary));
    answer(r.refusal, r.place, &[r.total])
}

pub fn totals_total(room: &[u64], count: u64, summary: &[u64]) -> Answer {
    let r = TotalsTotalResult::from(totals::total(room, count as usize, summary));
    answer(r.refusal, r.place, &[r.total])
}

pub fn totals_find(room: &[u64], count: u64, summary: &[u64], cent: u64) -> Answer {
    let r = TotalsFindResult::from(totals::find(room, count as usize, summary, Cent(cent)));
    answer(r.refusal, r.place, &[r.line])
}

pub fn totals_change(
    room: &mut [u64],
    count: u64,
    summary: &mut [u64],
    line: u64,
    value: u64,
) -> Answer {
    let item = Item(line as usize);
    let r = TotalsChangeResult::from(upkeep::change(room, count as usize, summary, item, value));
    answer(r.refusal, r.place, &[r.total])
}

pub fn totals_append(room: &mut [u64], count: u64, summary: &mut [u64], value: u64) -> Answer {
    let r = TotalsAppendResult::from(upkeep::append(room, count as usize, summary, value));
    answer(r.refusal, r.place, &[r.count])
}

pub fn totals_check(room: &[u64], count: u64, summary: &[u64]) -> Answer {
    let r = TotalsCheckResult::from(totals::check(room, count as usize, summary));
    answer(r.refusal, r.place, &[r.wrong, r.block])
}
