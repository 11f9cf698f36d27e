// Lines counted off from the first, anew for each drawing point, and the marks that this leaves.
ghost use Rattle.std.specs.Prelude.{◌≡◌, length};
ghost use Rattle.blackboard.specs.Board.{counts_for, row_end, stop_at, points_of, marked, drawn_lines};
ghost use Rattle.blackboard.specs.Steps.{walker_at, BoardMarked};

use crate::{Board, Walker};
use terms::Cent;

// What a line counts for: its cents, and nothing where it is full.
#[tactic(auto, unfolding(crate::specs::Board::counts_for))]
fn counts_for(value: u64, interval: u64) -> u64
    ensures { result ≡ counts_for interval value }
{
    if value > interval { 0 } else { value }
}

// How many lines are marked 1.
#[tactic(auto, using(crate::proofs::Drawn::drawn_none))]
fn drawn_lines(marks: &[u8]) -> u64
    ensures { result ≡ drawn_lines marks.now }
{
    let mut drawn: u64 = 0;
    for mark in marks {
        if *mark == 1 {
            drawn += 1;
        }
    }
    drawn
}

impl Board<'_> {
    // All lines counted off: the cent at which the row ends.
    #[tactic(auto, using(crate::proofs::Counting::counting_none))]
    fn row_end(self) -> u64
        ensures { result ≡ row_end self.entry.interval self.entry.ledger.now }
    {
        let mut counted: u64 = 0;
        for value in self.ledger {
            counted += counts_for(*value, self.interval);
        }
        counted
    }

    // Lines counted off from the first until the point is covered: the line that covers it, or the number of lines where none does.
    #[tactic(auto, using(crate::proofs::Counting::to_none, crate::proofs::Counting::to_here, crate::proofs::Counting::to_end))]
    pub fn count_off(self, point: u64) -> usize
        ensures { result ≡ stop_at self.entry.interval self.entry.ledger.now point }
    {
        let mut counted: u64 = 0;
        for (line, value) in self.ledger.iter().enumerate() {
            counted += counts_for(*value, self.interval);
            if point < counted {
                return line;
            }
        }
        self.ledger.len()
    }

    // Where the walk stands at a point: counting off to it stops at a line, or past the last.
    pub fn walker_at(self, point: u64) -> Walker
        ensures { result ≡ walker_at self.entry.interval self.entry.ledger.now point }
    {
        Walker {
            point,
            stop: self.count_off(point),
        }
    }

    // Point after point to the end of the row: the line at which the counting stops is marked 1. A `while`: `step_by` asks for a step above 0, and an
    // interval of 0 has no point.
    fn mark_points(self, start: Cent, marks: &mut [u8])
        requires { length marks.old ≡ length self.ledger.now }
        ensures { marks.new ≡ marked self.entry.interval self.entry.ledger.now (points_of self.entry.interval start.0 self.entry.ledger.now) marks.old }
    {
        let end = self.row_end();
        let mut point = start.0;
        // a true `while`: it steps by the interval, and over no list
        while point < end {
            marks[self.count_off(point)] = 1;
            point += self.interval;
        }
    }

    // Every line marked, 2 for full, 1 where the counting stops for some point and 0 for the others; answers how many are drawn.
    pub fn mark_lines(self, start: Cent, marks: &mut [u8]) -> u64
        requires { length marks.old ≡ length self.ledger.now }
        ensures { BoardMarked self.entry.interval start.0 self.entry.ledger.now result marks.new }
    {
        split::mark_full(self.ledger, self.interval, marks);
        self.mark_points(start, marks);
        drawn_lines(marks)
    }
}
