// The working file called: read, written and salvaged.
use crate::answer;
use answers::Answer;
use results::{ReadResult, SalvageResult, WriteResult};

pub fn read(file: &[u8], words: &mut [u64], values: &mut [u64], errors: &mut [i64]) -> Answer {
    let r = ReadResult::from(reader::read(file, words, values, errors));
    let figures = [r.level, r.te, r.ae, r.words, r.lines];
    answer(r.refusal, r.place, &figures)
}

pub fn write(
    level: u8,
    te: u64,
    ae: u64,
    words: &[u64],
    values: &[u64],
    errors: &[i64],
    file: &mut [u8],
) -> Answer {
    let r = WriteResult::from(writer::write(level, te, ae, words, values, errors, file));
    answer(r.refusal, r.place, &[r.length])
}

// What can be kept of a file goes to the second buffer; its answer without the old Z's figures.
pub fn salvage(file: &[u8], out: &mut [u8]) -> SalvageResult {
    salvaging::salvage(file, out).into()
}

pub fn of_salvage(r: SalvageResult) -> Answer {
    let figures = [r.length, r.kept, r.dropped, r.lines, r.sum];
    answer(r.refusal, r.place, &figures)
}
