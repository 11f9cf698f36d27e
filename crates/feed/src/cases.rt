// The next case of standard input: its length, then its bytes. A length of 0 ends the cases.
use crate::input::Place;
use parts::{front, front_to_fill};
use pen::Pen;
use std::io;

// Says what is wrong with a case, in a line that no answer has; there is no case then.
fn stop(rt: &impl Print, number: u64, wrong: &[u8]) -> io::Result<usize> {
    let mut page = [0u8; 80];
    let numbered = Pen { at: 0 }.number(&mut page, number);
    let told = numbered.text(&mut page, wrong);
    answers::write_line(rt, &mut page, told)?;
    Ok(0)
}

// The length of the next case.
fn length(rt: &HostRuntime, number: u64) -> io::Result<usize> {
    let mut header = [0u8; 4];
    if streams::read_full(&mut rt.stdin(), &mut header)? < 4 {
        return stop(rt, number, b" has no length, and no end stands before it");
    }
    Ok(Place(&header).four() as usize)
}

// The bytes of a case of this length; the answer is how many there are.
fn read(rt: &HostRuntime, number: u64, input: &mut [u8], length: usize) -> io::Result<usize> {
    if length > input.len() {
        return stop(rt, number, b" is longer than the room for a case");
    }
    if streams::read_full(&mut rt.stdin(), front_to_fill(input, length))? < length {
        return stop(rt, number, b" is cut short");
    }
    Ok(length)
}

// The next case, read into a buffer; no bytes where there is none.
pub fn next<'a>(rt: &HostRuntime, number: u64, input: &'a mut [u8]) -> io::Result<&'a [u8]> {
    let length = length(rt, number)?;
    let count = read(rt, number, input, length)?;
    Ok(front(input, count))
}
