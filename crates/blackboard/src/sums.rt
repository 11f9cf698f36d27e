// The lines added up by their marks, one by one, while the walk goes on beside them.
ghost use Rattle.std.specs.Prelude.{◌≡◌, ◌+◌, ◌≤◌, ◌<◌};
ghost use Rattle.terms.specs.Outcome.{says};
ghost use Rattle.terms.specs.Limits.{most_total, most_interval};
ghost use Rattle.blackboard.specs.Project.{board_amount, with_line, line_added, board_projection_of, board_projection_at};
ghost use Rattle.blackboard.specs.Steps.{mark_where, walker_after, SumRoom, KindsRoom, SmallSums, ToAdd};

use crate::{Board, BoardKinds, BoardProjection, BoardSums, Walker};
use terms::{Cent, Item, Refusal};

// The amount of a drawn line: error × interval / value, rounded up once, exact beyond 64 bits.
pub fn board_amount(value: u64, error: u64, interval: u64) -> u64
    requires { (0 < value) × (value ≤ interval) × (error ≤ value) × (interval ≤ most_interval) }
    ensures { (result ≡ board_amount interval value error) × (result ≤ interval) }
{
    wide::scaled_up(interval, error, value)
}

// The mark of a line, while the counting stops at the line `stop`.
#[tactic(auto, unfolding(crate::specs::Steps::mark_where))]
pub fn mark_where(value: u64, interval: u64, line: usize, stop: usize) -> u8
    ensures { result ≡ mark_where interval value line stop }
{
    if value > interval {
        2
    } else if line == stop {
        1
    } else {
        0
    }
}

// The sums of a kind with what a line gives by its mark.
#[tactic(auto, unfolding(crate::specs::Project::with_line, crate::specs::Project::board_amount))]
fn with_line(sums: BoardSums, mark: u8, value: u64, error: u64, interval: u64) -> BoardSums
    requires { SumRoom interval sums mark value × (error ≤ value) }
    ensures { result ≡ with_line interval sums mark value error }
{
    match mark {
        2 => BoardSums {
            full: sums.full + error,
            ..sums
        },
        1 => BoardSums {
            sampled: sums.sampled + board_amount(value, error, interval),
            m: if error > 0 { sums.m + 1 } else { sums.m },
            ..sums
        },
        _ => sums,
    }
}

// Both kinds' sums with one line more; 14 where its error exceeds its value, 15 where it has an error and no mark.
fn add_line(
    kinds: BoardKinds,
    item: Item,
    mark: u8,
    value: u64,
    error: i64,
    interval: u64,
) -> Result<BoardKinds, Refusal>
    requires { KindsRoom interval kinds mark value }
    ensures { says result ≡ line_added interval item.0 kinds mark value error }
{
    let size = signed::size_of(error);
    if size > value {
        return Err(Refusal::ErrorAboveValue(item.0 as u64));
    }
    if mark == 0 {
        if size > 0 {
            return Err(Refusal::ErrorNotDrawn(item.0 as u64));
        }
        return Ok(kinds);
    }
    let overstated = signed::overstated_of(error);
    let understated = signed::understated_of(error);
    Ok(BoardKinds {
        over: with_line(kinds.over, mark, value, overstated, interval),
        under: with_line(kinds.under, mark, value, understated, interval),
    })
}

// Both kinds' sums, and what the overstatements are more than the understatements.
fn projection_of(over: BoardSums, under: BoardSums) -> BoardProjection
    requires { SmallSums over × SmallSums under }
    ensures { result ≡ board_projection_of over under }
{
    BoardProjection {
        full: over.full,
        sampled: over.sampled,
        m: over.m,
        under_full: under.full,
        under_sampled: under.sampled,
        net: signed::net_of(over.full + over.sampled, under.full + under.sampled),
    }
}

impl Board<'_> {
    // After a line: to the next point, where the counting stopped at that line.
    #[tactic(auto, unfolding(crate::specs::Steps::walker_after))]
    pub fn walk_on(self, at: Walker, line: usize) -> Walker
        requires { at.point ≤ most_total + most_interval }
        ensures { result ≡ walker_after self.entry.interval self.entry.ledger.now at line }
    {
        if line == at.stop {
            return self.walker_at(at.point + self.interval);
        }
        at
    }

    // All lines, in ledger order: their sums, or the first refusal.
    pub fn add_up(self, start: Cent, errors: &[i64]) -> Result<BoardProjection, Refusal>
        requires { ToAdd self.interval start.0 self.ledger.now errors.now }
        ensures { says result ≡ board_projection_at self.entry.interval start.0 self.entry.ledger.now errors.now }
    {
        let none = BoardSums {
            full: 0,
            sampled: 0,
            m: 0,
        };
        let mut kinds = BoardKinds {
            over: none,
            under: none,
        };
        let mut at = self.walker_at(start.0);
        for (line, value) in self.ledger.iter().enumerate() {
            let mark = mark_where(*value, self.interval, line, at.stop);
            kinds = add_line(kinds, Item(line), mark, *value, errors[line], self.interval)?;
            at = self.walk_on(at, line);
        }
        Ok(projection_of(kinds.over, kinds.under))
    }
}
