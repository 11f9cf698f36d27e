// Makes a working file: reads a text in the notation from standard input and writes its file to standard output, after the byte 0x42 where the text
// asks for the blackboard method; or writes what is wrong with the text to standard error, one line, and nothing to standard output.
#![tactic(auto)]

mod method; // method.rt: whether a text asks for the blackboard method

use crate::method::letter_place;
use entry::Notation;
use std::io;
use workfile::Contents;

// The byte before the file of a text that asks for the blackboard method.
fn put_method(rt: &HostRuntime, board: bool) -> io::Result<()> {
    if board {
        rt.write_all(b"B")?;
    }
    Ok(())
}

// The file of a content, written at once.
fn put_file(
    rt: &HostRuntime,
    board: bool,
    contents: Contents,
    words: &[u64],
    values: &[u64],
    errors: &[i64],
) -> io::Result<()> {
    let mut file = [0u8; workfile::LONGEST_FILE];
    match writer::write(
        contents.level,
        contents.te,
        contents.ae,
        words,
        values,
        errors,
        &mut file,
    ) {
        Ok(length) => {
            put_method(rt, board)?;
            rt.write_all(&file[..length as usize])
        }
        // no text earns this: `text_writes` of crate notation
        Err(_) => typed::say(&rt.stderr(), b"the text has no file\n"),
    }
}

fn pack(rt: &HostRuntime, board: bool, text: &[u8]) -> io::Result<()> {
    let mut words = [0u64; workfile::MOST_WORDS];
    let mut values = [0u64; workfile::MOST_FILE_LINES];
    let mut errors = [0i64; workfile::MOST_FILE_LINES];
    match notation::parse(text, Notation::Desk, &mut words, &mut values, &mut errors) {
        Err(fault) => typed::say_fault(&rt.stderr(), fault, Notation::Desk),
        Ok(contents) => {
            let count = contents.words as usize;
            let lines = contents.lines as usize;
            put_file(
                rt,
                board,
                contents,
                &words[..count],
                &values[..lines],
                &errors[..lines],
            )
        }
    }
}

// The letter B of a text that asks for the blackboard method becomes a blank, so that its line holds nothing and the others keep their numbers.
fn pack_text(rt: &HostRuntime, text: &mut [u8]) -> io::Result<()> {
    let letter = letter_place(text);
    if letter < text.len() {
        text[letter] = 32;
        pack(rt, true, text)
    } else {
        pack(rt, false, text)
    }
}

fn main(rt: HostRuntime) -> io::Result<()> {
    let mut text = [0u8; typed::TEXT_ROOM];
    match typed::read_text(&mut rt.stdin(), &rt.stderr(), &mut text)? {
        None => Ok(()),
        Some(length) => pack_text(&rt, &mut text[..length]),
    }
}
