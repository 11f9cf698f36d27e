// What a new value makes of a block's figure and of the grand total.
ghost use Rattle.std.specs.Prelude.{◌≡◌, ◌<◌};
ghost use Rattle.terms.specs.Outcome.{says};
ghost use Rattle.terms.specs.Limits.{most_lines};
ghost use Rattle.upkeep.specs.Upkeep.{value_judged, figure_moved, both_moved, changed_to, appended_to};

use crate::NewFigures;
use terms::Refusal;

// A line whose old value goes out, and the new one in; the number of blocks, the figure of the line's block, and the grand total.
#[derive(Clone, Copy)]
pub struct Exchange {
    pub line: usize,
    pub old: u64,
    pub value: u64,
    pub many: usize,
    pub figure: u64,
    pub grand: u64,
}

impl Exchange {
    // Refusals 3 and 4 of the new value: by itself, and by the grand total that it makes.
    #[tactic(auto, unfolding(crate::specs::Upkeep::value_judged))]
    fn judge(self) -> Result<u64, Refusal>
        ensures { says result ≡ value_judged self.line self.value self.old self.grand }
    {
        if self.value > terms::MOST_VALUE {
            return Err(Refusal::ValueTooLarge(self.line as u64));
        }
        if self
            .grand
            .saturating_sub(self.old)
            .saturating_add(self.value)
            > terms::MOST_TOTAL
        {
            return Err(Refusal::TotalTooLarge(self.line as u64));
        }
        Ok(self.value)
    }

    // A figure with the old value taken out and the new one put in, or 31.
    #[tactic(auto, unfolding(crate::specs::Upkeep::figure_moved))]
    fn moved(self, block: usize, figure: u64) -> Result<u64, Refusal>
        ensures { says result ≡ figure_moved block figure self.old self.value }
    {
        let moved = match figure.checked_sub(self.old) {
            Some(rest) => rest.checked_add(self.value),
            None => self.value.checked_sub(self.old - figure),
        };
        moved.ok_or(Refusal::WrongFigure(block as u64))
    }

    // The figure of the line's block, then the grand total.
    #[tactic(auto, unfolding(crate::specs::Upkeep::both_moved))]
    fn both(self) -> Result<NewFigures, Refusal>
        ensures { says result ≡ both_moved self.line self.value self.old self.many self.figure self.grand }
    {
        let figure = self.moved(self.line / totals::PER_BLOCK, self.figure)?;
        let grand = self.moved(self.many, self.grand)?;
        Ok(NewFigures { figure, grand })
    }

    // Refusals 3, 4 and 31 of a change.
    #[tactic(auto, unfolding(crate::specs::Upkeep::changed_to, crate::specs::Upkeep::value_judged))]
    pub fn changed(self) -> Result<NewFigures, Refusal>
        ensures { says result ≡ changed_to self.line self.value self.old self.many self.figure self.grand }
    {
        self.judge()?;
        self.both()
    }

    // Refusals 3, 4, 18 and 31 of a line that is appended in a room: nothing goes out.
    #[tactic(auto, unfolding(crate::specs::Upkeep::appended_to, crate::specs::Upkeep::value_judged))]
    pub fn appended(
        count: usize,
        room: usize,
        value: u64,
        many: usize,
        figure: u64,
        grand: u64,
    ) -> Result<NewFigures, Refusal>
        requires { count < most_lines }
        ensures { says result ≡ appended_to count room value many figure grand }
    {
        let put = Exchange {
            line: count,
            old: 0,
            value,
            many,
            figure,
            grand,
        };
        put.judge()?;
        if count >= room {
            return Err(Refusal::RoomTooShort(count as u64 + 1));
        }
        put.both()
    }
}
