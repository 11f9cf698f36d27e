// Prints the sheet of a ledger in strata: reads its text from standard input and writes the sheet to standard output; or writes what is wrong with the
// text to standard error, one line, and nothing to standard output.
#![tactic(auto)]

use entry::Notation;
use std::io;

fn programmes(rt: &HostRuntime, text: &[u8]) -> io::Result<()> {
    let mut page = [0u8; reply::LONGEST_REPLY];
    match reply::reply(text, &mut page) {
        Err(fault) => typed::say_fault(&rt.stderr(), fault, Notation::Programmes),
        Ok(length) => rt.write_all(&page[..length]),
    }
}

fn main(rt: HostRuntime) -> io::Result<()> {
    let mut text = [0u8; typed::TEXT_ROOM];
    match typed::read_text(&mut rt.stdin(), &rt.stderr(), &mut text)? {
        None => Ok(()),
        Some(length) => programmes(&rt, &text[..length]),
    }
}
