// Totals beside the ledger: a lent summary with one total for every 256 entries of the room, over the lines in use, then the grand total.
#![tactic(auto)]

mod blocks; // blocks.rt: the loops over the blocks, and over the lines of a block

ghost use Rattle.std.specs.Prelude.{◌≡◌};
ghost use Rattle.terms.specs.Outcome.{says};
ghost use Rattle.totals.specs.Summary.{shape_of, BuildPromise, TotalPromise};
ghost use Rattle.totals.specs.Lookup.{FindPromise};
ghost use Rattle.totals.specs.Comparison.{CheckPromise};

use terms::{Cent, Item, Refusal};

// The entries of the room that one total stands for.
pub const PER_BLOCK: usize = 256;

// Refusals 2, 13 and 21, in this order. `most` is the largest count of lines in use, `beside` the length of the summary.
#[tactic(auto, using(crate::proofs::Shapes::blocks_few), unfolding(crate::specs::Summary::shape_of, crate::specs::Summary::blocks, terms::specs::Numbers::div_up))]
pub fn judge_shape(most: usize, count: usize, room: usize, beside: usize) -> Result<usize, Refusal>
    ensures { says result ≡ shape_of most count room beside }
{
    if count > most {
        return Err(Refusal::TooManyLines);
    }
    if count > room {
        return Err(Refusal::LengthsDiffer);
    }
    let many = room.div_ceil(PER_BLOCK);
    if beside != many + 1 {
        return Err(Refusal::WrongSummaryLength);
    }
    Ok(many)
}

// Room, count and summary stay three parameters below: C lends them so, and building writes the summary that the others read.

// Writes the summary of the lines in use, and answers the grand total; a refused call leaves it.
#[tactic(auto, unfolding(crate::specs::Summary::build_of, crate::specs::Summary::built_summary))]
pub fn build(room: &[u64], count: usize, summary: &mut [u64]) -> Result<u64, Refusal>
    ensures { BuildPromise room.now count summary.old result summary.new }
{
    let many = judge_shape(terms::MOST_LINES, count, room.len(), summary.len())?;
    let lines = &room[..count];
    let total = ledger::judge_lines(lines)?;
    blocks::fill(lines, many, total, summary);
    Ok(total)
}

// The grand total as it stands in the summary.
#[tactic(auto, using(crate::proofs::Shapes::judged_shape), unfolding(crate::specs::Summary::grand_total_of))]
pub fn total(room: &[u64], count: usize, summary: &[u64]) -> Result<u64, Refusal>
    ensures { TotalPromise room.now count summary.now result }
{
    let many = judge_shape(terms::MOST_LINES, count, room.len(), summary.len())?;
    Ok(summary[many])
}

// The line of the whole, unsplit ledger that holds a cent, by the summary's figures as they stand.
#[tactic(auto, using(crate::proofs::Shapes::judged_shape), unfolding(crate::specs::Lookup::find_of, crate::specs::Lookup::find_in))]
pub fn find(room: &[u64], count: usize, summary: &[u64], cent: Cent) -> Result<Item, Refusal>
    ensures { FindPromise room.now count summary.now cent.0 result }
{
    let many = judge_shape(terms::MOST_LINES, count, room.len(), summary.len())?;
    if cent.0 >= summary[many] {
        return Err(Refusal::LineNotThere(0));
    }
    blocks::find_block(&room[..count], &summary[..many], cent.0)
}

// The first figure of the summary that is wrong, if any: a block's, or the grand total, which counts as one more.
#[tactic(auto, unfolding(crate::specs::Comparison::compared_of))]
pub fn check(room: &[u64], count: usize, summary: &[u64]) -> Result<Option<u64>, Refusal>
    ensures { CheckPromise room.now count summary.now result }
{
    let many = judge_shape(terms::MOST_LINES, count, room.len(), summary.len())?;
    let lines = &room[..count];
    let total = ledger::judge_lines(lines)?;
    Ok(blocks::first_wrong(lines, many, total, summary))
}
