// The desk program: reads a working file from standard input, after the byte 0x42 where it goes by the blackboard method, and writes its sheet.
#![tactic(auto)]

use std::io;

fn main(rt: HostRuntime) -> io::Result<()> {
    let mut input = [0u8; sheet::DECIDING_BYTES];
    let length = streams::read_full(&mut rt.stdin(), &mut input)?;
    let mut page = [0u8; sheet::LONGEST_TEXT];
    let bytes = sheet::sheet(&input[..length], &mut page);
    rt.write_all(&page[..bytes])
}
