// The attribute job aid: reads a line of level, tolerance and exceptions from standard input and writes the confidence statement in figures to
// standard output, or the line of the first refusal. Where the line is no such line it says so to standard error and writes nothing else.
#![tactic(auto)]

use entry::Run;
use std::io;

// A longer line is not taken.
const MOST_LINE: usize = 80;

// One byte more is read, so that a longer line is seen.
const LINE_ROOM: usize = MOST_LINE + 1;

// The text, or nothing of it where its first line is too long: a number that is cut would be another one.
fn taken(text: &[u8]) -> &[u8] {
    if entry::fields::reach(text, 0, Run::Line) > MOST_LINE {
        &text[..0]
    } else {
        text
    }
}

fn main(rt: HostRuntime) -> io::Result<()> {
    let mut text = [0u8; LINE_ROOM];
    let mut page = [0u8; confidence::LONGEST_STATEMENT];
    let length = streams::read_full(&mut rt.stdin(), &mut text)?;
    match confidence::answer_line(taken(parts::front(&text, length)), &mut page) {
        Some(bytes) => rt.write_all(&page[..bytes]),
        None => rt.stderr().write_all(
            b"a line is asked for of level, tolerance and exceptions, as 90 5 2\n",
        ),
    }
}
