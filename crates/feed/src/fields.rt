// The fields of a case: its numbers, then its lists; docs/VECTORS.md says which operation takes which.
use crate::bytes;
use crate::input::Place;
use crate::lists::{Listed, by_patterns};
use crate::operations::Operation;
use parts::part;

// The file of a read or a salvage stands after the lists.
#[derive(Clone, Copy)]
pub struct Case<'a> {
    pub operation: Operation,
    pub level: u8,
    pub first: u64,
    pub second: u64,
    pub third: u64,
    pub room: usize,
    pub ledger: Listed<'a>,
    pub errors: Listed<'a>,
    pub words: Listed<'a>,
    pub file: Place<'a>,
}

// How many entries the ledger and the words of a case have.
#[derive(Clone, Copy)]
pub struct Lists {
    pub ledger: usize,
    pub words: usize,
}

impl<'a> Case<'a> {
    pub fn of(input: &'a [u8]) -> Case<'a> {
        let start = Place(input);
        let ledger = Listed(start.on(30));
        let errors = Listed(ledger.end());
        let words = Listed(errors.end());
        Case {
            operation: Operation::of(start.byte()),
            level: start.on(1).byte(),
            first: start.on(2).eight(),
            second: start.on(10).eight(),
            third: start.on(18).eight(),
            room: start.on(26).four() as usize,
            ledger,
            errors,
            words,
            file: words.end(),
        }
    }

    // The ledger at the start of the numbers, and the words after it.
    pub fn lay(self, numbers: &mut [u64]) -> Lists {
        let ledger = self.ledger.lay(numbers, 0);
        let words = self.words.lay(numbers, ledger);
        Lists { ledger, words }
    }

    // Counts stand in the place of the words, as many as the second number says, and starts after them.
    pub fn counts(self, words: &[u64]) -> &[u64] {
        part(words, 0, self.second as usize)
    }

    pub fn starts(self, words: &[u64]) -> &[u64] {
        rest(words, self.second as usize)
    }

    // Of findings the words are the marks, as many as the room has bytes, then the lines, as many as the first number says, then the errors found.
    pub fn lines(self, words: &[u64]) -> &[u64] {
        part(words, self.room, self.first as usize)
    }

    pub fn found<'b>(self, words: &[u64], buffer: &'b mut [i64]) -> &'b mut [i64] {
        let patterns = rest(rest(words, self.room), self.first as usize);
        by_patterns(patterns, patterns.len(), buffer)
    }

    // The error of one finding, by its pattern.
    pub fn error(self) -> i64 {
        self.second.cast_signed()
    }

    // `latest` is the room of bytes that was lent last.
    pub fn file_in<'b>(self, latest: &[u8], buffer: &'b mut [u8]) -> &'b [u8] {
        bytes::file(self.file, latest, buffer)
    }
}

// The words from a place on; all of them where there is no such place.
fn rest(words: &[u64], from: usize) -> &[u64] {
    if from <= words.len() {
        &words[from..]
    } else {
        words
    }
}
