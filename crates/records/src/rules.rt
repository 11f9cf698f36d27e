// A record judged by the rules, from the counts of those before it.
ghost use Rattle.std.specs.Prelude.{◌≡◌};
ghost use Rattle.workfile.specs.Decode.{fits};
ghost use Rattle.records.specs.Judging.{Allowed, judged};

use crate::Judged;
use workfile::{FileRecord, Tally};

// Whether the rules allow a record after those counted.
#[tactic(auto, unfolding(workfile::specs::Decode::fits))]
fn allows(tally: Tally, found: FileRecord) -> bool
    ensures { result ≡ fits tally found }
{
    match found {
        // Before any L, and at most 64.
        FileRecord::Word(_) => tally.lines == 0 && tally.words < workfile::MOST_WORDS,
        // Before any E or U, at most 2,048, and the running sum within 64 bits.
        FileRecord::Value(value) => {
            tally.next_line == 0
                && tally.lines < workfile::MOST_FILE_LINES
                && value <= u64::MAX - tally.sum
        }
        // Lines strictly rising and below the count of L, the size above 0 and within its kind's.
        FileRecord::ErrorOf(under, line, size) => {
            tally.next_line <= line
                && line < tally.lines
                && size > 0
                && size <= signed::most_size(under)
        }
        // The count and the exact sum of L.
        FileRecord::End(count, sum) => count == tally.lines && sum == tally.sum,
        FileRecord::Nothing => false,
    }
}

// The judgement of a record that the rules allow: no rule is tested again.
#[tactic(auto, using(crate::proofs::Judging::word_below, crate::proofs::Judging::line_below, crate::proofs::Judging::sum_below_lem, crate::proofs::Judging::error_below, crate::proofs::Judging::word_taken, crate::proofs::Judging::value_taken, crate::proofs::Judging::error_taken, crate::proofs::Judging::end_taken, crate::proofs::Judging::no_record))]
pub fn take(tally: Tally, found: FileRecord) -> Judged
    requires { Allowed tally found }
    ensures { result ≡ judged tally found }
{
    match found {
        FileRecord::Word(_) => Judged::Next(
            Tally {
                words: tally.words + 1,
                ..tally
            },
            9,
        ),
        FileRecord::Value(value) => Judged::Next(
            Tally {
                lines: tally.lines + 1,
                sum: tally.sum + value,
                ..tally
            },
            9,
        ),
        FileRecord::ErrorOf(_, line, _) => Judged::Next(
            Tally {
                next_line: line + 1,
                ..tally
            },
            13,
        ),
        FileRecord::End(_, _) => Judged::Last,
        FileRecord::Nothing => Judged::Bad,
    }
}

// A record that the rules allow is taken.
#[tactic(auto, using(crate::proofs::Judging::tested, crate::proofs::Judging::untested))]
pub fn judge(tally: Tally, found: FileRecord) -> Judged
    ensures { result ≡ judged tally found }
{
    if allows(tally, found) {
        take(tally, found)
    } else {
        Judged::Bad
    }
}
