// One line after another: its error is added to the sums of its kind, and an overstated line's amount is kept. Then what all lines come to.
ghost use Rattle.std.specs.Prelude.{◌≡◌, take};
ghost use Rattle.sorting.specs.Sorting.{Sorted};
ghost use Rattle.project.specs.Project.{projection_of};
ghost use Rattle.project.specs.Gather.{added_to, Fits, kept_by, Small, Passable, PassPromise};

use crate::{Line, Progress, Projection, State, Sums, checked_line};
use terms::{Item, Refusal};

// The sums with one line added.
fn added(mut sums: Sums, line: Line) -> Sums
    requires { Fits sums line }
    ensures { result ≡ added_to sums line }
{
    match line.state {
        State::NotDrawn => {}
        State::Drawn(amount) => {
            sums.sampled += amount;
            if line.error > 0 {
                sums.m += 1;
            }
        }
        State::Full => sums.full += line.error,
    }
    sums
}

// Puts the amount of a drawn line with an error above 0 in its place among the m before it, which fall, while there is room: a fixed array, since nothing here takes memory.
#[tactic(auto, unfolding(crate::specs::Gather::kept_by))]
fn keep(amounts: &mut [u64], m: u64, line: Line)
    requires { Sorted (take m amounts.old) }
    ensures { amounts.new ≡ kept_by amounts.old m line.state line.error }
{
    match line.state {
        State::Drawn(amount) if line.error > 0 => sorting::insert_down(amounts, m as usize, amount),
        _ => {}
    }
}

// One line is passed: checked by the size of its error, added to the sums of its kind, and walked over. An overstated line's amount
// is kept. A line without an error passes, and adds nothing.
pub fn pass_line(
    item: Item,
    value: u64,
    error: i64,
    interval: u64,
    at: Progress,
    amounts: &mut [u64],
) -> Result<Progress, Refusal>
    requires { Passable interval value at amounts.old }
    ensures { PassPromise item.0 value error interval at amounts.old result amounts.new }
{
    let Progress {
        over,
        under,
        next: here,
    } = at;
    let next = walk::step_over(value, interval, here);
    if error == 0 {
        return Ok(Progress { over, under, next });
    }
    let line = checked_line(item, value, signed::size_of(error), interval, here)?;
    if error < 0 {
        let under = added(under, line);
        return Ok(Progress { over, under, next });
    }
    keep(amounts, over.m, line);
    let over = added(over, line);
    Ok(Progress { over, under, next })
}

// Both kinds' sums, and what the overstatements are more than the understatements.
pub fn projection_of(over: Sums, under: Sums) -> Projection
    requires { Small over × Small under }
    ensures { result ≡ projection_of over under }
{
    let upper = over.full + over.sampled;
    let lower = under.full + under.sampled;
    let net = signed::net_of(upper, lower);
    Projection {
        full: over.full,
        sampled: over.sampled,
        m: over.m,
        under_full: under.full,
        under_sampled: under.sampled,
        net,
    }
}
