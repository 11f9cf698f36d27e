// The starts of the strata from the words in their order, one stratum after the other.
#![tactic(auto)]

ghost use Rattle.std.specs.Prelude.{◌≤◌, length};
ghost use Rattle.terms.specs.Limits.{most_strata};
ghost use Rattle.starts.specs.Starts.{starts_of, StartsPromise};

use strata::Row;
use terms::Refusal;

// How many strata have their start, the start of each, and the words read by each: all 0 past the last.
// Two arrays, not one of pairs: the projection by strata is lent the starts alone, as C lends them.
#[derive(Clone, Copy)]
pub struct Starts {
    pub strata: u64,
    pub starts: [u64; 32],
    pub words: [u64; 32],
}

// Each stratum's start by the random start operation, from the words after those that the strata before it have read; or 12 with the words lent.
pub fn starts_of(rows: &[Row], words: &[u64]) -> Result<Starts, Refusal>
    requires { length rows.now ≤ most_strata }
    ensures { StartsPromise (starts_of rows.now words.now) result }
{
    let mut starts = [0u64; 32];
    let mut used = [0u64; 32];
    let mut read: usize = 0;
    for (h, row) in rows.iter().enumerate() {
        let interval = row.figures.interval;
        let Ok(chosen) = start::start(interval, &words[read..]) else {
            return Err(Refusal::NoWordPasses(words.len() as u64));
        };
        starts[h] = chosen.start;
        used[h] = chosen.words;
        read += chosen.words as usize;
    }
    Ok(Starts {
        strata: rows.len() as u64,
        starts,
        words: used,
    })
}
