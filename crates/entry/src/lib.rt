// One line of the text from which a working file is made: its fields, its numbers and its record.
#![tactic(auto)]

pub mod fields; // fields.rt: the bytes of a line, its fields and numbers
pub mod body; // body.rt: the numbers of a line
pub mod records; // records.rt: the record of a line

use workfile::FileRecord;

// The notations of a text: the desk's, and that of a ledger in strata.
#[derive(Clone, Copy)]
pub enum Notation {
    Desk,
    Programmes,
}

// What is wrong with a line; the last is wrong with the call.
#[derive(Clone, Copy)]
pub enum Wrong {
    UnknownKind,
    NumberMissing,
    NotNumber,
    NumberTooLarge,
    FieldTooMany,
    NoPlan,
    SecondPlan,
    LevelTooLarge,
    OutOfOrder,
    NoStratum,
    TooManyWords,
    TooManyLines,
    TotalTooLarge,
    UnknownLine,
    LineNotRising,
    ErrorZero,
    ErrorTooLarge,
    NoRoom,
}

// What a run of bytes goes on over.
#[derive(Clone, Copy)]
pub enum Run {
    Blanks,
    Field,
    Line,
}

// The last three numbers of a line; where it has fewer, the others are 0.
#[derive(Clone, Copy)]
pub struct Numbers {
    pub first: u64,
    pub second: u64,
    pub third: u64,
}

// What a line holds: P or N, the S that opens a stratum, or another record of the working file; a blank line and a comment hold nothing.
#[derive(Clone, Copy)]
pub enum Record {
    Nothing,
    Plan(u64, u64, u64),
    Stratum,
    Filed(FileRecord),
    Unreadable(Wrong),
}

// A line of a text: what it holds, and where the next begins.
#[derive(Clone, Copy)]
pub struct TextLine {
    pub found: Record,
    pub next: usize,
}
