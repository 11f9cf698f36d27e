// The records of a list, stored one after another, and what a list adds up to.
ghost use Rattle.std.specs.Prelude.{◌≡◌, [], ◌∷◌, ◌+◌, ◌*◌, ◌≤◌, length};
ghost use Rattle.workfile.specs.Content.{error_records};
ghost use Rattle.writer.specs.Parts.{Laid, rows, error_bytes, total_of};

use crate::records;

// A record of one kind for each number of a list.
#[tactic(auto, using(crate::proofs::Rows::rows_room, crate::proofs::Rows::rows_done))]
pub fn put_list(file: &mut [u8], at: usize, kind: u8, list: &[u64]) -> usize
    requires { at + 9 * length list.now ≤ length file.old }
    ensures { Laid file.old at (rows kind list.now) file.new result }
{
    let mut to = at;
    for number in list {
        to = records::put_one(file, to, kind, *number);
    }
    to
}

// An E or a U, where the error is not 0.
fn put_error(file: &mut [u8], at: usize, line: usize, error: i64) -> usize
    requires { at + length (error_bytes line (error ∷ [])) ≤ length file.old }
    ensures { Laid file.old at (error_bytes line (error ∷ [])) file.new result }
{
    let size = signed::size_of(error);
    if size == 0 {
        return at;
    }
    let kind = if error < 0 { 0x55 } else { 0x45 };
    records::put_two(file, at, kind, line, size)
}

// An E or a U for each error other than 0.
#[tactic(auto, using(crate::proofs::Rows::errors_start, crate::proofs::Rows::errors_room, crate::proofs::Rows::errors_done))]
pub fn put_errors(file: &mut [u8], at: usize, errors: &[i64]) -> usize
    requires { at + length (error_bytes 0 errors.now) ≤ length file.old }
    ensures { Laid file.old at (error_bytes 0 errors.now) file.new result }
{
    let mut to = at;
    for (line, error) in errors.iter().enumerate() {
        to = put_error(file, to, line, *error);
    }
    to
}

// How many errors are not 0. A loop: `filter` and `count` take 11 instructions for each, and this 3.
pub fn count_errors(errors: &[i64]) -> usize
    ensures { (result ≡ length (error_records 0 errors.now)) × (result ≤ length errors.now) }
{
    let mut count: usize = 0;
    for error in errors {
        if signed::size_of(*error) != 0 {
            count += 1;
        }
    }
    count
}

// The sum of the values, where it is within 64 bits.
#[tactic(auto, using(crate::proofs::Rows::sum_on))]
pub fn add_up(values: &[u64]) -> Option<u64>
    ensures { result ≡ total_of values.now }
{
    let mut total: u64 = 0;
    for value in values {
        total = total.checked_add(*value)?;
    }
    Some(total)
}
