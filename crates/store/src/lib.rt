// One record of the working file goes to its place in the lent buffers.
#![tactic(auto)]

ghost use Rattle.std.specs.Prelude.{◌≡◌, ◌≤◌, ◌<◌, length, set};
ghost use Rattle.signed.specs.Errors.{signed_of, most_size};
ghost use Rattle.store.specs.Storing.{zeroed, HasPlace, Put};

use workfile::{FileRecord, Tally};

// Zeros from `from` up to `to`.
#[tactic(auto, unfolding(crate::specs::Storing::zeroed))]
fn clear(buffer: &mut [i64], from: usize, to: usize)
    requires { (from ≤ to) × (to ≤ length buffer.old) }
    ensures { buffer.new ≡ zeroed buffer.old from to }
{
    buffer[from..to].fill(0);
}

// The error of a line, after those of the lines before it, from `from` on.
#[tactic(auto, using(crate::proofs::Placing::error_set))]
fn put_error(errors: &mut [i64], from: usize, line: usize, size: u64, under: bool)
    requires { (from ≤ line) × ((line < length errors.old) × (size ≤ most_size under)) }
    ensures { errors.new ≡ set (zeroed errors.old from line) line (signed_of size under) }
{
    clear(errors, from, line);
    errors[line] = signed::signed_of(size, under);
}

// A record that the rules allow after those counted. Lines that E and U pass over, and those after the last, get error 0.
#[tactic(auto, using(crate::proofs::Placing::word_place, crate::proofs::Placing::value_place, crate::proofs::Placing::error_after, crate::proofs::Placing::error_place, crate::proofs::Placing::error_size, crate::proofs::Placing::end_after, crate::proofs::Placing::end_place, crate::proofs::Placing::put_word, crate::proofs::Placing::put_value, crate::proofs::Placing::put_error, crate::proofs::Placing::put_end, crate::proofs::Placing::put_nothing))]
pub fn put_record(
    found: FileRecord,
    tally: Tally,
    words: &mut [u64],
    values: &mut [u64],
    errors: &mut [i64],
)
    requires { HasPlace tally found words.old values.old errors.old }
    ensures { Put tally found words.old values.old errors.old words.new values.new errors.new }
{
    match found {
        FileRecord::Word(word) => {
            words[tally.words] = word;
        }
        FileRecord::Value(value) => {
            values[tally.lines] = value;
        }
        FileRecord::ErrorOf(under, line, size) => {
            put_error(errors, tally.next_line, line, size, under);
        }
        FileRecord::End(count, _) => {
            clear(errors, tally.next_line, count);
        }
        FileRecord::Nothing => {}
    }
}
