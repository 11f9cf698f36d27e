// What a line is to the strata, where it may stand, and what it adds to those before it.
ghost use Rattle.std.specs.Prelude.{◌≡◌, ◌+◌, ◌^◌, ◌<◌};
ghost use Rattle.divided.specs.Divided.{part_of, order_of};
ghost use Rattle.divided.specs.Steps.{counts_with, part_taken};

use crate::{Dividing, Part};
use entry::{Record, Wrong};
use workfile::FileRecord;

impl Part {
    pub fn of(found: Record) -> Part
        ensures { result ≡ part_of found }
    {
        match found {
            Record::Stratum => Part::Stratum,
            Record::Filed(FileRecord::Word(_)) => Part::Word,
            Record::Filed(FileRecord::Value(_)) => Part::Line,
            Record::Filed(FileRecord::ErrorOf(_, _, _)) => Part::Error,
            Record::Filed(_) => Part::Other,
            Record::Nothing => Part::Other,
            Record::Plan(_, _, _) => Part::Other,
            Record::Unreadable(_) => Part::Other,
        }
    }

    // Whether the part may stand after those before it: whether an S is among them, and whether an E or a U is.
    #[tactic(auto, unfolding(crate::specs::Divided::order_of))]
    pub fn order(self, opened: bool, late: bool) -> Result<(), Wrong>
        ensures { result ≡ order_of opened late self }
    {
        match self {
            Part::Stratum if late => Err(Wrong::OutOfOrder),
            Part::Word if opened => Err(Wrong::OutOfOrder),
            Part::Line if !opened => Err(Wrong::NoStratum),
            _ => Ok(()),
        }
    }
}

impl Dividing {
    // The counts with the stratum that ends here.
    pub fn counts_with(self) -> [u64; crate::STORED]
        ensures { result ≡ counts_with self }
    {
        let mut counts = self.counts;
        if self.strata == 0 || self.strata > crate::STORED {
            return counts;
        }
        counts[self.strata - 1] = self.lines;
        counts
    }

    // What the lines so far say, with one more.
    #[tactic(auto, unfolding(crate::specs::Steps::part_taken))]
    pub fn with_part(self, part: Part) -> Dividing
        requires { (self.strata + 1 < 2 ^ 64) × (self.lines + 1 < 2 ^ 64) }
        ensures { result ≡ part_taken self part }
    {
        match part {
            Part::Stratum => Dividing {
                strata: self.strata + 1,
                late: self.late,
                lines: 0,
                counts: self.counts_with(),
            },
            Part::Line => Dividing {
                lines: self.lines + 1,
                ..self
            },
            Part::Error => Dividing { late: true, ..self },
            Part::Word => self,
            Part::Other => self,
        }
    }
}
