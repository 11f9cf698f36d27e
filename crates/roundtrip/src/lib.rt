// A working file there and back: no condition is left under which what is written reads back, and no second file has a content.
#![tactic(auto)]

ghost use Rattle.signed.specs.Errors.{AllHeld};
ghost use Rattle.workfile.specs.Promises.{plan_with};
ghost use Rattle.roundtrip.specs.RoundTrip.{WriteThenRead, ReadThenWrite};

use terms::Refusal;
use workfile::Contents;

// Every error that is lent is a number of 64 bits: reading it says so.
#[tactic(auto, using(crate::proofs::Trips::none_read, crate::proofs::Trips::one_read, crate::proofs::Trips::all_read))]
fn read_each(errors: &[i64])
    ensures { AllHeld errors.now }
{
    for error in errors {
        signed::size_of(*error);
    }
}

// The file of a content goes to the buffer, and what is read of it to three others; a refused write changes nothing.
pub fn write_then_read(
    level: u8,
    te: u64,
    ae: u64,
    words: &[u64],
    values: &[u64],
    errors: &[i64],
    file: &mut [u8],
    words_read: &mut [u64; workfile::MOST_WORDS],
    values_read: &mut [u64; workfile::MOST_FILE_LINES],
    errors_read: &mut [i64; workfile::MOST_FILE_LINES],
) -> Result<Contents, Refusal>
    ensures { WriteThenRead (plan_with level te ae) words.now values.now errors.now file.old words_read.old values_read.old errors_read.old result file.new words_read.new values_read.new errors_read.new }
{
    read_each(errors);
    let length = writer::write(level, te, ae, words, values, errors, file)?;
    reader::read(
        &file[..length as usize],
        words_read,
        values_read,
        errors_read,
    )
}

// The content of a file is written again; a refused file changes nothing.
pub fn read_then_write(
    file: &[u8],
    again: &mut [u8; workfile::LONGEST_FILE],
) -> Result<u64, Refusal>
    ensures { ReadThenWrite file.now again.old result again.new }
{
    let mut words = [0u64; workfile::MOST_WORDS];
    let mut values = [0u64; workfile::MOST_FILE_LINES];
    let mut errors = [0i64; workfile::MOST_FILE_LINES];
    let contents = reader::read(file, &mut words, &mut values, &mut errors)?;
    let count = contents.words as usize;
    let lines = contents.lines as usize;
    writer::write(
        contents.level,
        contents.te,
        contents.ae,
        &words[..count],
        &values[..lines],
        &errors[..lines],
        again,
    )
}
