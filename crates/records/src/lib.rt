// A record of the working file: what stands at a place of the bytes, and what the rules say of it.
#![tactic(auto)]

pub mod numbers; // numbers.rt: the numbers at a place of a file
pub mod rules; // rules.rt: a record judged by the rules

ghost use Rattle.std.specs.Prelude.{◌≡◌, ◌≤◌, length};
ghost use Rattle.workfile.specs.Decode.{record_at};

use numbers::{eight_bytes, four_bytes};
use workfile::{FileRecord, Tally};

// A record judged by the rules: the counts with it and its length; Z; or a broken rule: three cases, which neither Option nor Result has.
#[derive(Clone, Copy)]
pub enum Judged {
    Next(Tally, usize),
    Last,
    Bad,
}

// The whole record that stands at `at`.
#[tactic(auto, using(workfile::proofs::Finding::no_nine, workfile::proofs::Finding::word_at, workfile::proofs::Finding::value_at, workfile::proofs::Finding::no_thirteen, workfile::proofs::Finding::end_at, workfile::proofs::Finding::no_kind))]
pub fn record_at(file: &[u8], at: usize) -> FileRecord
    requires { at ≤ length file.now }
    ensures { result ≡ record_at file.now at }
{
    let left = file.len() - at;
    if left < 9 {
        return FileRecord::Nothing;
    }
    match file[at] {
        0x57 => FileRecord::Word(eight_bytes(file, at + 1)),
        0x4C => FileRecord::Value(eight_bytes(file, at + 1)),
        _ if left < 13 => FileRecord::Nothing,
        0x45 => FileRecord::ErrorOf(
            false,
            four_bytes(file, at + 1) as usize,
            eight_bytes(file, at + 5),
        ),
        0x55 => FileRecord::ErrorOf(
            true,
            four_bytes(file, at + 1) as usize,
            eight_bytes(file, at + 5),
        ),
        0x5A => FileRecord::End(four_bytes(file, at + 1) as usize, eight_bytes(file, at + 5)),
        _ => FileRecord::Nothing,
    }
}
