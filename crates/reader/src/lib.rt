// The reader of the working file: it judges the whole file before it stores anything.
#![tactic(auto)]

mod storing; // storing.rt: the content of a legal file goes to the buffers

ghost use Rattle.std.specs.Prelude.{◌≡◌};
ghost use Rattle.terms.specs.Outcome.{says};
ghost use Rattle.workfile.specs.Decode.{decode};
ghost use Rattle.workfile.specs.Promises.{ReadPromise};
ghost use Rattle.reader.specs.Steps.{Opened, stopped_in, check_of};

use records::Judged;
use terms::Refusal;
use workfile::{Contents, Tally};

// Where the first pass stopped: the offset after the records that the rules allow, Z left out; their counts; and whether Z ends them. Not a Result:
// the salvage takes the run that no Z ends too.
#[derive(Clone, Copy, Default)]
pub struct Stopped {
    pub at: usize,
    pub tally: Tally,
    pub ends: bool,
}

// The records after P, as far as the rules allow them.
#[tactic(auto, using(crate::proofs::Passing::begun, crate::proofs::Passing::onward))]
fn pass_records(file: &[u8]) -> Stopped
    requires { Opened file.now }
    ensures { result ≡ stopped_in file.now }
{
    let mut tally = Tally::default();
    let mut at = 18;
    loop {
        let judged = records::rules::judge(tally, records::record_at(file, at));
        let Judged::Next(next, size) = judged else {
            return Stopped {
                at,
                tally,
                ends: matches!(judged, Judged::Last),
            };
        };
        tally = next;
        at += size;
    }
}

// The first pass: the rules alone. Where there is no P, nothing is counted.
pub fn pass(file: &[u8]) -> Stopped
    ensures { result ≡ stopped_in file.now }
{
    if file.len() < 18 || file[0] != 0x50 {
        return Stopped::default();
    }
    pass_records(file)
}

// Legal where Z is last and nothing follows, or 17 with the place of the first record that breaks a rule.
#[tactic(auto, using(crate::proofs::Passing::within, crate::proofs::Passing::breaks_there, crate::proofs::Passing::z_whole, crate::proofs::Passing::closes, crate::proofs::Passing::trails))]
fn check(file: &[u8]) -> Result<(), Refusal>
    ensures { says result ≡ check_of (decode file.now) }
{
    let stopped = pass(file);
    if !stopped.ends {
        return Err(Refusal::FileBreaksRule(stopped.at as u64));
    }
    if file.len() - stopped.at != 13 {
        return Err(Refusal::FileBreaksRule((stopped.at + 13) as u64));
    }
    Ok(())
}

// The content of a working file goes to the buffers; 18 before 17, and a refused call changes nothing.
#[tactic(auto, unfolding(workfile::specs::Promises::read_of), using(crate::proofs::Answers::read_file, crate::proofs::Answers::broken_file, crate::proofs::Answers::is_legal))]
pub fn read(
    file: &[u8],
    words: &mut [u64],
    values: &mut [u64],
    errors: &mut [i64],
) -> Result<Contents, Refusal>
    ensures { ReadPromise file.now words.old values.old errors.old result words.new values.new errors.new }
{
    if words.len() < workfile::MOST_WORDS {
        return Err(Refusal::RoomTooShort(workfile::MOST_WORDS as u64));
    }
    if values.len() < workfile::MOST_FILE_LINES || errors.len() < workfile::MOST_FILE_LINES {
        return Err(Refusal::RoomTooShort(workfile::MOST_FILE_LINES as u64));
    }
    check(file)?;
    Ok(storing::store(file, words, values, errors))
}
