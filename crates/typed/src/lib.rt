// A text from standard input, and what is wrong with one, in words to standard error.
#![tactic(auto)]

ghost use Rattle.std.specs.Prelude.{IfOk};
ghost use Rattle.typed.specs.Typed.{Within};

use entry::Notation;
use notation::Fault;
use std::io;
use std::io::Read;

// A text longer than this is not taken.
const MOST_TEXT: usize = 500_000;

// One byte more is read, so that a longer text is seen.
pub const TEXT_ROOM: usize = 500_001;

// One line to standard error, which `err` is.
pub fn say(err: &impl Print, words: &[u8]) -> io::Result<()> {
    err.write_all(words)
}

// A fault in the words of its notation.
pub fn say_fault(err: &impl Print, fault: Fault, by: Notation) -> io::Result<()> {
    let mut page = [0u8; 80];
    let length = faults::print_fault(fault, by, &mut page);
    say(err, &page[..length])
}

// Whether a text begins with a byte-order mark: that of UTF-8, or one of UTF-16.
fn is_marked(text: &[u8]) -> bool {
    text.starts_with(b"\xEF\xBB\xBF")
        || text.starts_with(b"\xFF\xFE")
        || text.starts_with(b"\xFE\xFF")
}

// The input to its end or one byte past the longest text, and how long the text is; or nothing, when what is wrong has been said to `err`.
pub fn read_text<R: Read, E: Print>(
    input: &mut R,
    err: &E,
    text: &mut [u8; TEXT_ROOM],
) -> io::Result<Option<usize>>
    ensures { IfOk result (λ typed. Within text.new typed) }
{
    let length = streams::read_full(input, text)?;
    if length > MOST_TEXT {
        say(err, b"the text is longer than 500000 bytes\n")?;
        return Ok(None);
    }
    if is_marked(text) {
        say(
            err,
            b"the text begins with a byte-order mark: save it as UTF-8 without one\n",
        )?;
        return Ok(None);
    }
    Ok(Some(length))
}
