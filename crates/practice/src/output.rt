// A line of the output: what a line of standard input says of a case, its name and what is expected; then what was found.
use answers::Answer;
use pen::Pen;
use std::io;

// The next byte of standard input; at its end, the end of a line.
fn next_byte(rt: &HostRuntime) -> io::Result<u8> {
    let mut byte = [b'\n'];
    streams::read_full(&mut rt.stdin(), &mut byte)?;
    Ok(byte[0])
}

// The next line of standard input, without its end.
fn put_line(rt: &HostRuntime, page: &mut [u8]) -> io::Result<Pen> {
    let mut pen = Pen { at: 0 };
    let mut byte = next_byte(rt)?;
    for _ in 0..page.len() {
        if byte == b'\n' {
            break;
        }
        pen = pen.byte(page, byte);
        byte = next_byte(rt)?;
    }
    Ok(pen)
}

fn open(rt: &HostRuntime, page: &mut [u8]) -> io::Result<Pen> {
    Ok(put_line(rt, page)?.text(page, b", found"))
}

// A case that finds an answer.
pub fn found(rt: &HostRuntime, answer: Answer) -> io::Result<()> {
    let mut page = [0u8; 256];
    let opened = open(rt, &mut page)?;
    let told = answers::put(opened, &mut page, answer);
    answers::write_line(rt, &mut page, told)
}

// A case that finds a number.
pub fn number(rt: &HostRuntime, found: u64) -> io::Result<()> {
    let mut page = [0u8; 256];
    let opened = open(rt, &mut page)?;
    let told = opened.field(&mut page, found);
    answers::write_line(rt, &mut page, told)
}

fn put_marks(pen: Pen, page: &mut [u8], marks: &[u8]) -> Pen {
    let mut told = pen;
    for mark in marks {
        told = told.field(page, *mark as u64);
    }
    told
}

// A case that finds marks.
pub fn marks(rt: &HostRuntime, found: &[u8]) -> io::Result<()> {
    let mut page = [0u8; 256];
    let opened = open(rt, &mut page)?;
    let told = put_marks(opened, &mut page, found);
    answers::write_line(rt, &mut page, told)
}
