// The loops: over the blocks of the room, and over the lines of a block.
// `many`, the number of blocks, stands beside the summary: C lends the blocks' figures and the grand total behind them as one.
ghost use Rattle.std.specs.Prelude.{◌≡◌, [], ◌∷◌, ◌++◌, ◌^◌, ◌≤◌, ◌<◌, length};
ghost use Rattle.terms.specs.Numbers.{sum};
ghost use Rattle.totals.specs.Summary.{block_from, block_totals, Fillable};
ghost use Rattle.totals.specs.Lookup.{find_says, line_within, block_in};
ghost use Rattle.totals.specs.Comparison.{first_wrong};

use crate::PER_BLOCK;
use terms::{Item, Refusal};

// The lines in use of the block that begins at a line.
#[tactic(auto, using(crate::proofs::Loops::block_lent))]
fn block_at(lines: &[u64], from: usize) -> &[u64]
    ensures { result.now ≡ block_from from lines.now }
{
    let from = from.min(lines.len());
    &lines[from..lines.len().min(from + PER_BLOCK)]
}

// The total of the lines of the block that begins at a line.
#[tactic(auto, using(crate::proofs::Loops::adding_none, crate::proofs::Loops::adding_fits, crate::proofs::Loops::adding_more, crate::proofs::Loops::adding_end))]
fn add_lines(lines: &[u64], from: usize) -> u64
    requires { sum lines.now < 2 ^ 64 }
    ensures { result ≡ sum (block_from from lines.now) }
{
    let mut total = 0;
    for value in block_at(lines, from) {
        total += *value;
    }
    total
}

// Writes the total of each block, then the grand total.
#[tactic(auto, using(crate::proofs::Loops::building_none))]
pub fn fill(lines: &[u64], many: usize, total: u64, summary: &mut [u64])
    requires { Fillable lines.now many summary.old }
    ensures { summary.new ≡ block_totals many lines.now ++ (total ∷ []) }
{
    for (block, figure) in summary[..many].iter_mut().enumerate() {
        *figure = add_lines(lines, block * PER_BLOCK);
    }
    summary[many] = total;
}

// The first figure that is not its block's total, then the grand total.
#[tactic(auto, using(crate::proofs::Loops::comparing_first))]
pub fn first_wrong(lines: &[u64], many: usize, total: u64, summary: &[u64]) -> Option<u64>
    requires { Fillable lines.now many summary.now }
    ensures { result ≡ first_wrong 0 (block_totals many lines.now ++ (total ∷ [])) summary.now }
{
    for (block, figure) in summary[..many].iter().enumerate() {
        if *figure != add_lines(lines, block * PER_BLOCK) {
            return Some(block as u64);
        }
    }
    if summary[many] != total {
        return Some(many as u64);
    }
    None
}

// The line of a block that holds a cent, counted from the block's first cent.
#[tactic(auto, using(crate::proofs::Loops::looking_first, crate::proofs::Loops::looking_here, crate::proofs::Loops::looking_more, crate::proofs::Loops::looking_end, crate::proofs::Loops::block_inside))]
fn find_line(lines: &[u64], block: usize, from: usize, cent: u64) -> Result<Item, Refusal>
    ensures { find_says result ≡ line_within block from cent (block_from from lines.now) }
{
    let mut rest = cent;
    for (line, value) in block_at(lines, from).iter().enumerate() {
        if rest < *value {
            return Ok(Item(from + line));
        }
        rest -= *value;
    }
    Err(Refusal::WrongFigure(block as u64))
}

// Block by block by the figures, then line by line.
#[tactic(auto, using(crate::proofs::Loops::going_first, crate::proofs::Loops::going_here, crate::proofs::Loops::going_more, crate::proofs::Loops::going_end))]
pub fn find_block(lines: &[u64], figures: &[u64], cent: u64) -> Result<Item, Refusal>
    requires { length figures.now ≤ 2 ^ 56 }
    ensures { find_says result ≡ block_in 0 cent figures.now lines.now }
{
    let mut rest = cent;
    for (block, figure) in figures.iter().enumerate() {
        if rest < *figure {
            return find_line(lines, block, block * PER_BLOCK, rest);
        }
        rest -= *figure;
    }
    Err(Refusal::WrongFigure(figures.len() as u64))
}
