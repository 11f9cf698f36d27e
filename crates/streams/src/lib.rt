// Reading an input into a room of bytes.
#![tactic(auto)]

ghost use Rattle.std.specs.Prelude.{IfOk, ◌≤◌, length};

use std::io;
use std::io::{ErrorKind, Read};

// Reads until the room is full or the input ends, and answers how many bytes stand at the start of the room. A read that a signal interrupts
// is tried again; one that fails is the answer.
pub fn read_full<R: Read>(input: &mut R, room: &mut [u8]) -> io::Result<usize>
    ensures { IfOk result (λ n. n ≤ length room.new) }
{
    let mut done = 0;
    for _ in 0..u64::MAX {
        if done >= room.len() {
            break;
        }
        match input.read(&mut room[done..]) {
            Ok(0) => break,
            Ok(got) => done += got,
            Err(e) => {
                if e.kind() != ErrorKind::Interrupted {
                    return Err(e);
                }
            }
        }
    }
    Ok(done)
}
