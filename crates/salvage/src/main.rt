// Mends a working file that was cut: reads it from standard input and writes the mended file to standard output, and to standard error one line of
// what it did, or of its refusal. Where the input is longer than it takes it says so there, and writes nothing to standard output.
#![tactic(auto)]

use std::io;

// A longer input is not taken.
const MOST_BYTES: usize = 500_000;

// One byte more is read, so that a longer input is seen.
const FILE_ROOM: usize = 500_001;

// The mended file, where there is one, and the line of what was done.
fn mend(rt: &HostRuntime, file: &[u8]) -> io::Result<()> {
    let mut out = [0u8; workfile::LONGEST_FILE];
    let answer = salvaging::salvage(file, &mut out);
    if let Ok(salvaged) = answer {
        rt.write_all(parts::front(&out, salvaged.length as usize))?;
    }
    let mut page = [0u8; report::LONGEST_REPORT];
    let bytes = report::print_report(answer, &mut page);
    rt.stderr().write_all(&page[..bytes])
}

fn main(rt: HostRuntime) -> io::Result<()> {
    let mut file = [0u8; FILE_ROOM];
    let length = streams::read_full(&mut rt.stdin(), &mut file)?;
    if length > MOST_BYTES {
        return rt
            .stderr()
            .write_all(b"the file is longer than 500000 bytes\n");
    }
    mend(&rt, parts::front(&file, length))
}
