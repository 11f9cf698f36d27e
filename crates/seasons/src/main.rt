// Prints the season's sheet: reads working files that stand in a row from standard input and writes the sheet to standard output. Where the input is
// longer than it takes it says so to standard error, one line, and writes nothing to standard output.
#![tactic(auto)]

use std::io;

// A longer input is not taken.
const MOST_BYTES: usize = 500_000;

// One byte more is read, so that a longer input is seen.
const FILES_ROOM: usize = 500_001;

fn main(rt: HostRuntime) -> io::Result<()> {
    let mut files = [0u8; FILES_ROOM];
    let length = streams::read_full(&mut rt.stdin(), &mut files)?;
    if length > MOST_BYTES {
        return rt
            .stderr()
            .write_all(b"the files are longer than 500000 bytes\n");
    }
    let mut page = [0u8; overview::LONGEST_OVERVIEW];
    let bytes = overview::overview(&files[..length], &mut page);
    rt.write_all(&page[..bytes])
}
