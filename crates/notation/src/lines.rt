// What a line adds to those before it, by the rules of the working file; P, N, S and what is no record are the text's own.
ghost use Rattle.std.specs.Prelude.{◌≡◌};
ghost use Rattle.notation.specs.Contents.{broken_rule, taken_plan, taken_stratum, taken_record, taken_of};

use crate::State;
use entry::{Record, Wrong};
use records::Judged;
use workfile::{FileRecord, Plan, Tally};

// Which rule bars a record that the rules bar: the first of its kind that it breaks, and the last of them where it breaks no other. No line writes the last two.
#[tactic(auto, unfolding(crate::specs::Contents::broken_rule))]
fn broken_rule(tally: Tally, found: FileRecord) -> Wrong
    ensures { result ≡ broken_rule tally found }
{
    match found {
        FileRecord::Word(_) if tally.lines > 0 => Wrong::OutOfOrder,
        FileRecord::Word(_) => Wrong::TooManyWords,
        FileRecord::Value(_) if tally.next_line > 0 => Wrong::OutOfOrder,
        FileRecord::Value(_) if tally.lines >= workfile::MOST_FILE_LINES => Wrong::TooManyLines,
        FileRecord::Value(_) => Wrong::TotalTooLarge,
        FileRecord::ErrorOf(_, line, _) if line >= tally.lines => Wrong::UnknownLine,
        FileRecord::ErrorOf(_, line, _) if line < tally.next_line => Wrong::LineNotRising,
        FileRecord::ErrorOf(_, _, size) if size > 0 => Wrong::ErrorTooLarge,
        FileRecord::ErrorOf(_, _, _) => Wrong::ErrorZero,
        FileRecord::End(_, _) => Wrong::UnknownKind,
        FileRecord::Nothing => Wrong::UnknownKind,
    }
}

impl State {
    // P or N: once, and with a level of one byte.
    #[tactic(auto, unfolding(crate::specs::Contents::taken_plan))]
    fn take_plan(self, level: u64, te: u64, ae: u64) -> Result<State, Wrong>
        ensures { result ≡ taken_plan self level te ae }
    {
        if self.planned {
            return Err(Wrong::SecondPlan);
        }
        if level > 255 {
            return Err(Wrong::LevelTooLarge);
        }
        Ok(State {
            planned: true,
            plan: Plan {
                level: level as u8,
                te,
                ae,
            },
            tally: self.tally,
        })
    }

    // S: after N.
    #[tactic(auto, unfolding(crate::specs::Contents::taken_stratum))]
    fn take_stratum(self) -> Result<State, Wrong>
        ensures { result ≡ taken_stratum self }
    {
        if self.planned {
            Ok(self)
        } else {
            Err(Wrong::NoPlan)
        }
    }

    // Any other record: after P or N, and as the file's rules judge it.
    #[tactic(auto, unfolding(crate::specs::Contents::taken_record))]
    fn take_record(self, found: FileRecord) -> Result<State, Wrong>
        ensures { result ≡ taken_record self found }
    {
        if !self.planned {
            return Err(Wrong::NoPlan);
        }
        match records::rules::judge(self.tally, found) {
            Judged::Next(next, _) => Ok(State {
                planned: true,
                plan: self.plan,
                tally: next,
            }),
            Judged::Last => Err(broken_rule(self.tally, found)),
            Judged::Bad => Err(broken_rule(self.tally, found)),
        }
    }

    // A line by those before it.
    #[tactic(auto, unfolding(crate::specs::Contents::taken_of))]
    pub fn take(self, found: Record) -> Result<State, Wrong>
        ensures { result ≡ taken_of self found }
    {
        match found {
            Record::Nothing => Ok(self),
            Record::Plan(level, te, ae) => self.take_plan(level, te, ae),
            Record::Stratum => self.take_stratum(),
            Record::Filed(record) => self.take_record(record),
            Record::Unreadable(wrong) => Err(wrong),
        }
    }
}
