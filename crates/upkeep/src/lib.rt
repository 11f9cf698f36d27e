// A summary is kept right: a line in use is changed, or one is appended, with its block's figure and the grand total. Neither ledger nor summary is walked.
#![tactic(auto)]

mod figures; // figures.rt: what a new value makes of the figures

ghost use Rattle.upkeep.specs.Upkeep.{ChangePromise, AppendPromise};

use figures::Exchange;
use terms::{Item, Refusal};

// The figure of a line's block and the grand total, with its new value.
#[derive(Clone, Copy)]
pub struct NewFigures {
    pub figure: u64,
    pub grand: u64,
}

// A new value for a line in use; answers the new grand total. A refused call changes nothing.
#[tactic(auto, using(totals::proofs::Shapes::judged_shape, totals::proofs::Shapes::block_within), unfolding(crate::specs::Upkeep::change_of))]
pub fn change(
    room: &mut [u64],
    count: usize,
    summary: &mut [u64],
    line: Item,
    value: u64,
) -> Result<u64, Refusal>
    ensures { ChangePromise room.old count summary.old line.0 value result room.new summary.new }
{
    let many = totals::judge_shape(terms::MOST_LINES, count, room.len(), summary.len())?;
    if line.0 >= count {
        return Err(Refusal::LineNotThere(0));
    }
    let block = line.0 / totals::PER_BLOCK;
    let put = Exchange {
        line: line.0,
        old: room[line.0],
        value,
        many,
        figure: summary[block],
        grand: summary[many],
    };
    let new = put.changed()?;
    room[line.0] = value;
    summary[block] = new.figure;
    summary[many] = new.grand;
    Ok(new.grand)
}

// One line more, after those in use; answers the new count, which the caller keeps. A refused call changes nothing.
#[tactic(auto, using(totals::proofs::Shapes::judged_shape, totals::proofs::Shapes::block_at_most), unfolding(crate::specs::Upkeep::append_of))]
pub fn append(
    room: &mut [u64],
    count: usize,
    summary: &mut [u64],
    value: u64,
) -> Result<usize, Refusal>
    ensures { AppendPromise room.old count summary.old value result room.new summary.new }
{
    let last = totals::judge_shape(terms::MOST_LINES - 1, count, room.len(), summary.len())?;
    let block = count / totals::PER_BLOCK;
    let new = Exchange::appended(
        count,
        room.len(),
        value,
        last,
        summary[block],
        summary[last],
    )?;
    room[count] = value;
    summary[block] = new.figure;
    summary[last] = new.grand;
    Ok(count + 1)
}
