// The second pass, over a file that keeps the rules: its content goes to the buffers.
ghost use Rattle.std.specs.Prelude.{◌≡◌, ◌≤◌, length};
ghost use Rattle.workfile.specs.Decode.{record_at, plan_of};
ghost use Rattle.workfile.specs.Promises.{Rooms};
ghost use Rattle.store.specs.Storing.{HasPlace};
ghost use Rattle.reader.specs.Steps.{contents_with, Stepped, IsLegal, Stored};

use records::Judged;
use workfile::{Contents, Tally};

// The record at a place of a legal file goes to its buffer; answers its judgement.
fn step(
    file: &[u8],
    at: usize,
    tally: Tally,
    words: &mut [u64],
    values: &mut [u64],
    errors: &mut [i64],
) -> Judged
    requires { (at ≤ length file.now) × HasPlace tally (record_at file.now at) words.old values.old errors.old }
    ensures { Stepped file.now at tally result words.old values.old errors.old words.new values.new errors.new }
{
    let found = records::record_at(file, at);
    store::put_record(found, tally, words, values, errors);
    records::rules::take(tally, found)
}

// The reader's answer: the plan, which stands first, and the counts of words and lines.
fn contents(file: &[u8], tally: Tally) -> Contents
    requires { 18 ≤ length file.now }
    ensures { result ≡ contents_with (plan_of file.now) tally }
{
    Contents {
        level: file[1],
        te: records::numbers::eight_bytes(file, 2),
        ae: records::numbers::eight_bytes(file, 10),
        words: tally.words as u64,
        lines: tally.lines as u64,
    }
}

// The whole pass; answers the plan and the counts.
#[tactic(auto, using(crate::proofs::Second::sets_out, crate::proofs::Second::goes_on_lem, crate::proofs::Second::plan_long))]
pub fn store(file: &[u8], words: &mut [u64], values: &mut [u64], errors: &mut [i64]) -> Contents
    requires { IsLegal file.now × Rooms words.old values.old errors.old }
    ensures { Stored file.now words.old values.old errors.old result words.new values.new errors.new }
{
    let mut tally = Tally::default();
    let mut at = 18;
    // Z ends it, for a legal file breaks no rule.
    while let Judged::Next(next, size) = step(file, at, tally, words, values, errors) {
        tally = next;
        at += size;
    }
    contents(file, tally)
}
