// The working file: its records, its limits, and what the reader and the writer answer. What a file holds is defined in specs/.
#![tactic(auto)]

// The largest counts that a file holds, and the length of the longest legal file.
pub const MOST_WORDS: usize = 64;

pub const MOST_FILE_LINES: usize = 2_048;

pub const LONGEST_FILE: usize = 45_663;

// The body of record P.
#[derive(Clone, Copy)]
pub struct Plan {
    pub level: u8,
    pub te: u64,
    pub ae: u64,
}

// A record after P: W, L, E or U with its line and size, Z with the count and the sum of L; or that no whole record stands there.
#[derive(Clone, Copy)]
pub enum FileRecord {
    Word(u64),
    Value(u64),
    ErrorOf(bool, usize, u64),
    End(usize, u64),
    Nothing,
}

// What the rules ask of the records so far; `next_line` is the lowest line that an E or U may name.
#[derive(Clone, Copy, Default)]
pub struct Tally {
    pub words: usize,
    pub lines: usize,
    pub sum: u64,
    pub next_line: usize,
}

// What a legal file holds, with the counts of its words and lines.
#[derive(Clone, Copy)]
pub struct Contents {
    pub level: u8,
    pub te: u64,
    pub ae: u64,
    pub words: u64,
    pub lines: u64,
}
