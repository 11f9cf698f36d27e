// The record of a line: its kind, and as many numbers as the kind has.
ghost use Rattle.std.specs.Prelude.{◌≡◌, ◌≤◌, ◌<◌, length};
ghost use Rattle.entry.specs.Records.{is_own, is_kind, count_of, made_of, record_with, record_in};
ghost use Rattle.entry.specs.Steps.{fields_at, line_at};

use crate::body::read_numbers;
use crate::fields::reach;
use crate::{Notation, Numbers, Record, Run, TextLine, Wrong};
use workfile::FileRecord;

impl Notation {
    // Whether a byte is a kind that this notation alone has.
    #[tactic(auto, unfolding(crate::specs::Records::is_own))]
    fn is_own(self, byte: u8) -> bool
        ensures { result ≡ is_own self byte }
    {
        match self {
            Notation::Desk => byte == b'P',
            Notation::Programmes => byte == b'N' || byte == b'S',
        }
    }

    // Whether a byte is a kind of the notation.
    #[tactic(auto, unfolding(crate::specs::Records::is_kind))]
    fn is_kind(self, byte: u8) -> bool
        ensures { result ≡ is_kind self byte }
    {
        matches!(byte, b'W' | b'L' | b'E' | b'U') || self.is_own(byte)
    }
}

// How many numbers a kind has; none for S and for what is no kind.
#[tactic(auto, unfolding(crate::specs::Records::count_of))]
fn count_of(kind: u8) -> usize
    ensures { result ≡ count_of kind }
{
    match kind {
        b'P' => 3,
        b'E' | b'U' => 2,
        b'N' | b'W' | b'L' => 1,
        _ => 0,
    }
}

// The record of a kind with its numbers.
#[tactic(auto, unfolding(crate::specs::Records::made_of))]
fn made(kind: u8, numbers: Numbers) -> Record
    ensures { result ≡ made_of kind numbers }
{
    match kind {
        b'P' => Record::Plan(numbers.first, numbers.second, numbers.third),
        b'N' => Record::Plan(0, 0, numbers.third),
        b'S' => Record::Stratum,
        b'W' => Record::Filed(FileRecord::Word(numbers.third)),
        b'L' => Record::Filed(FileRecord::Value(numbers.third)),
        b'E' => Record::Filed(FileRecord::ErrorOf(false, numbers.second as usize, numbers.third)),
        b'U' => Record::Filed(FileRecord::ErrorOf(true, numbers.second as usize, numbers.third)),
        _ => Record::Unreadable(Wrong::UnknownKind),
    }
}

// The record of a kind, whose numbers stand from `at` on.
#[tactic(auto, using(crate::proofs::Lines::no_kind, crate::proofs::Lines::no_numbers_lem, crate::proofs::Lines::of_numbers))]
fn record_with(by: Notation, kind: u8, line: &[u8], at: usize) -> Record
    requires { at ≤ length line.now }
    ensures { result ≡ record_with by kind (fields_at line.now at) }
{
    if !by.is_kind(kind) {
        return Record::Unreadable(Wrong::UnknownKind);
    }
    match read_numbers(line, at, count_of(kind)) {
        Err(wrong) => Record::Unreadable(wrong),
        Ok(numbers) => made(kind, numbers),
    }
}

// What a line holds.
#[tactic(auto, using(crate::proofs::Lines::no_record, crate::proofs::Lines::a_comment, crate::proofs::Lines::long_kind, crate::proofs::Lines::a_kind))]
pub fn record_of(line: &[u8], by: Notation) -> Record
    ensures { result ≡ record_in by line.now }
{
    let from = reach(line, 0, Run::Blanks);
    if from == line.len() {
        return Record::Nothing;
    }
    let to = reach(line, from, Run::Field);
    let kind = line[from];
    if kind == b'#' {
        return Record::Nothing;
    }
    if to - from != 1 {
        return Record::Unreadable(Wrong::UnknownKind);
    }
    record_with(by, kind, line, to)
}

// The line that begins at `at`.
#[tactic(auto, using(crate::proofs::TextLines::line_found))]
pub fn line_at(text: &[u8], at: usize, by: Notation) -> TextLine
    requires { at < length text.now }
    ensures { result ≡ line_at by text.now at }
{
    let end = reach(text, at, Run::Line);
    TextLine {
        found: record_of(&text[at..end], by),
        next: text.len().min(end + 1),
    }
}
