// A ledger in strata: how many strata its text has, how many lines each, or the first line that stands where it may not.
#![tactic(auto)]

mod parts; // parts.rt: what a line is to the strata, and what it adds

ghost use Rattle.std.specs.Prelude.{◌≡◌};
ghost use Rattle.divided.specs.Divided.{divided_of, stored_in};
ghost use Rattle.divided.specs.Steps.{no_strata};

use entry::Notation;
use notation::Fault;

// Lines of a text are numbered from 1.
const FIRST_LINE: usize = 1;

// As many counts are stored: one more than a ledger may have strata.
pub const STORED: usize = 33;

// What a line is to the strata.
#[derive(Clone, Copy)]
enum Part {
    Stratum,
    Word,
    Line,
    Error,
    Other,
}

// What the lines so far say: how many S, whether E or U, the lines of L since the last S, and the counts of the strata before that.
#[derive(Clone, Copy)]
struct Dividing {
    strata: usize,
    late: bool,
    lines: u64,
    counts: [u64; STORED],
}

// The number of strata, all of them, and the first counts, 0 where there is none.
#[derive(Clone, Copy)]
pub struct Divided {
    pub strata: usize,
    pub counts: [u64; STORED],
}

// Before the first line.
fn first() -> Dividing
    ensures { result ≡ no_strata }
{
    Dividing {
        strata: 0,
        late: false,
        lines: 0,
        counts: [0; STORED],
    }
}

// The strata of a text in the notation of a ledger in strata, or its first fault of order. By place: a line moves on by its own length.
pub fn divide(text: &[u8]) -> Result<Divided, Fault>
    ensures { result ≡ stored_in (divided_of text.now) }
{
    let mut at: usize = 0;
    let mut line: usize = FIRST_LINE;
    let mut so_far = first();
    while at < text.len() {
        let here = entry::records::line_at(text, at, Notation::Programmes);
        let part = Part::of(here.found);
        match part.order(so_far.strata > 0, so_far.late) {
            Err(wrong) => return Err(Fault { line, wrong }),
            Ok(()) => {
                so_far = so_far.with_part(part);
                at = here.next;
                line += 1;
            }
        }
    }
    Ok(Divided {
        strata: so_far.strata,
        counts: so_far.counts_with(),
    })
}
