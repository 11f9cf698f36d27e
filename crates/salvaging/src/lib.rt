// The salvage of a working file that was cut on transfer or carries a Z of before: the longest run of whole records from the start that the file
// rules allow, and a right Z. Where the run ends and what it has counted is told by the reader's first pass.
#![tactic(auto)]

ghost use Rattle.std.specs.Prelude.{◌≡◌, ◌+◌, ◌≤◌, length, take};
ghost use Rattle.workfile.specs.declared.FileRecord.TheVariants.{End};
ghost use Rattle.writer.specs.Parts.{Laid};
ghost use Rattle.salvaging.specs.Salvage.{old_end, old_size, with_end, salvaged_of, SalvagePromise};
ghost use Rattle.salvaging.specs.Steps.{kept_by, Counted, Ended};

use reader::Stopped;
use terms::Refusal;
use workfile::{FileRecord, Tally};

// A whole Z that stands directly after the run, right or wrong: its count and its sum.
#[derive(Clone, Copy)]
pub struct OldEnd {
    pub count: u64,
    pub sum: u64,
}

// What is said of a file that was salvaged: the result's length, the records kept, the bytes dropped, the new count and sum, and the old Z.
#[derive(Clone, Copy)]
pub struct Salvaged {
    pub length: u64,
    pub kept: u64,
    pub dropped: u64,
    pub lines: u64,
    pub sum: u64,
    pub old: Option<OldEnd>,
}

// The Z at hand, where the record is one.
#[tactic(auto, unfolding(crate::specs::Salvage::old_end))]
fn old_end(found: FileRecord) -> Option<OldEnd>
    ensures { result ≡ old_end found }
{
    match found {
        FileRecord::End(count, sum) => Some(OldEnd {
            count: count as u64,
            sum,
        }),
        _ => None,
    }
}

// The bytes of the old Z.
fn old_size(old: Option<OldEnd>) -> usize
    ensures { result ≡ old_size old }
{
    match old {
        Some(_) => 13,
        None => 0,
    }
}

// The records of a run that ends there: P, W and L as they were counted, and as many E and U as have room after them.
#[tactic(auto, unfolding(crate::specs::Steps::kept_by))]
fn kept_by(at: usize, tally: Tally) -> usize
    requires { Counted at tally }
    ensures { result ≡ kept_by at tally }
{
    let counted = tally.words + tally.lines;
    1 + counted + (at - 18 - 9 * counted) / 13
}

// What is said of the run.
#[tactic(auto, using(crate::proofs::Answers::at_within, crate::proofs::Answers::old_fits, crate::proofs::Answers::counted_there, crate::proofs::Answers::length_fits, crate::proofs::Answers::reported))]
fn said(file: &[u8], stopped: Stopped) -> Salvaged
    requires { Ended file.now stopped }
    ensures { result ≡ salvaged_of file.now }
{
    let at = stopped.at;
    let old = old_end(records::record_at(file, at));
    Salvaged {
        length: (at + 13) as u64,
        kept: kept_by(at, stopped.tally) as u64,
        dropped: (file.len() - at - old_size(old)) as u64,
        lines: stopped.tally.lines as u64,
        sum: stopped.tally.sum,
        old,
    }
}

// The first bytes of a file; answers their number. By index: `copy_from_slice` calls `memcpy`, which is counted at an instruction a byte, and the
// salvage of the longest file then at 1.34 times plain C.
fn copy(file: &[u8], count: usize, out: &mut [u8]) -> usize
    requires { (count ≤ length file.now) × (count ≤ length out.old) }
    ensures { Laid out.old 0 (take count file.now) out.new result }
{
    let mut i: usize = 0;
    while i < count {
        out[i] = file[i];
        i += 1;
    }
    i
}

// The run and a Z, where there is room.
fn put_result(file: &[u8], at: usize, lines: usize, sum: u64, out: &mut [u8]) -> usize
    requires { (at ≤ length file.now) × (at + 13 ≤ length out.old) }
    ensures { Laid out.old 0 (with_end file.now at (End lines sum)) out.new result }
{
    let end_at = copy(file, at, out);
    writer::records::put_two(out, end_at, 0x5A, lines, sum)
}

// What can be kept of a file goes to the second buffer, with a right Z; 29, then 18, and a refused call changes nothing.
#[tactic(auto, using(crate::proofs::Answers::none_first, crate::proofs::Answers::no_room, crate::proofs::Answers::needed_fits, crate::proofs::Answers::run_fits))]
pub fn salvage(file: &[u8], out: &mut [u8]) -> Result<Salvaged, Refusal>
    ensures { SalvagePromise file.now out.old result out.new }
{
    let stopped = reader::pass(file);
    if stopped.at == 0 {
        return Err(Refusal::NoWholePlan);
    }
    let needed = stopped.at + 13;
    if out.len() < needed {
        return Err(Refusal::RoomTooShort(needed as u64));
    }
    let tally = stopped.tally;
    put_result(file, stopped.at, tally.lines, tally.sum, out);
    Ok(said(file, stopped))
}
