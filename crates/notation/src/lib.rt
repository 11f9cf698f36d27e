// The text from which a working file is made: one record a line, in the practice sheet's own notation or in that of a ledger in strata.
#![tactic(auto)]

mod lines; // lines.rt: what a line adds, by the rules of the working file

ghost use Rattle.std.specs.Prelude.{◌≡◌, false, ◌<◌, length};
ghost use Rattle.workfile.specs.Promises.{Rooms};
ghost use Rattle.notation.specs.Contents.{reads, empty_content, state_of, text_of};
ghost use Rattle.notation.specs.Parse.{room_for, reading_counts, ParsePromise};
ghost use Rattle.store.specs.Storing.{Put};
ghost use Rattle.notation.specs.Steps.{turn_of, end_of, HasPlaceOf, filed, OnePass};

use entry::{Notation, Record, Wrong};
use workfile::{Contents, FileRecord, Plan, Tally};

// Lines of a text are numbered from 1.
const FIRST_LINE: usize = 1;

// The number of a line of the text and what is wrong there.
#[derive(Clone, Copy)]
pub struct Fault {
    pub line: usize,
    pub wrong: Wrong,
}

// What the lines so far say: whether P or N was among them, its plan, and the counts of the records after it. The plan is 0 before: definitions
// of what has been read name both.
#[derive(Clone, Copy)]
struct State {
    planned: bool,
    plan: Plan,
    tally: Tally,
}

// A line that was taken: its record, the state with it and where the next begins.
#[derive(Clone, Copy)]
struct Turn {
    found: Record,
    state: State,
    next: usize,
}

// The line that begins at `at`, by those before it.
#[tactic(auto, unfolding(crate::specs::Steps::turn_of))]
fn read_line(text: &[u8], by: Notation, at: usize, state: State) -> Result<Turn, Wrong>
    requires { at < length text.now }
    ensures { result ≡ turn_of by text.now at state }
{
    let line = entry::records::line_at(text, at, by);
    let state = state.take(line.found)?;
    Ok(Turn {
        found: line.found,
        state,
        next: line.next,
    })
}

// Before the first line.
fn first_state() -> State
    ensures { result ≡ state_of false empty_content }
{
    State {
        planned: false,
        plan: Plan {
            level: 0,
            te: 0,
            ae: 0,
        },
        tally: Tally {
            words: 0,
            lines: 0,
            sum: 0,
            next_line: 0,
        },
    }
}

impl State {
    // The answer at the end of a text, which is at a line's number.
    #[tactic(auto, unfolding(crate::specs::Steps::end_of))]
    fn at_end(self, line: usize) -> Result<Contents, Fault>
        ensures { reads result ≡ end_of self line }
    {
        if !self.planned {
            return Err(Fault {
                line,
                wrong: Wrong::NoPlan,
            });
        }
        Ok(Contents {
            level: self.plan.level,
            te: self.plan.te,
            ae: self.plan.ae,
            words: self.tally.words as u64,
            lines: self.tally.lines as u64,
        })
    }
}

// The first pass only judges. By place: a line moves on by its own length.
fn check(text: &[u8], by: Notation) -> Result<Contents, Fault>
    ensures { reads result ≡ reading_counts (text_of by text.now) }
{
    let mut at: usize = 0;
    let mut line: usize = FIRST_LINE;
    let mut state = first_state();
    while at < text.len() {
        match read_line(text, by, at, state) {
            Err(wrong) => return Err(Fault { line, wrong }),
            Ok(turn) => {
                state = turn.state;
                at = turn.next;
                line += 1;
            }
        }
    }
    state.at_end(line)
}

// The record of a line, if it has one, goes to its place.
fn keep(found: Record, tally: Tally, words: &mut [u64], values: &mut [u64], errors: &mut [i64])
    requires { HasPlaceOf found tally words.old values.old errors.old }
    ensures { Put tally (filed found) words.old values.old errors.old words.new values.new errors.new }
{
    if let Record::Filed(record) = found {
        store::put_record(record, tally, words, values, errors);
    }
}

// The second pass stores. Its end is the Z that the counts imply: lines after the last E or U get error 0. By place, as the first.
fn fill(
    text: &[u8],
    by: Notation,
    words: &mut [u64],
    values: &mut [u64],
    errors: &mut [i64],
) -> Result<Contents, Fault>
    requires { Rooms words.old values.old errors.old }
    ensures { OnePass by text.now words.old values.old errors.old result words.new values.new errors.new }
{
    let mut at: usize = 0;
    let mut line: usize = FIRST_LINE;
    let mut state = first_state();
    while at < text.len() {
        match read_line(text, by, at, state) {
            Err(wrong) => return Err(Fault { line, wrong }),
            Ok(turn) => {
                keep(turn.found, state.tally, words, values, errors);
                state = turn.state;
                at = turn.next;
                line += 1;
            }
        }
    }
    let tally = state.tally;
    let end = FileRecord::End(tally.lines, tally.sum);
    store::put_record(end, tally, words, values, errors);
    state.at_end(line)
}

#[tactic(auto, unfolding(crate::specs::Parse::room_for))]
fn has_room(words: usize, values: usize, errors: usize) -> bool
    ensures { result ≡ room_for words values errors }
{
    words >= workfile::MOST_WORDS
        && values >= workfile::MOST_FILE_LINES
        && errors >= workfile::MOST_FILE_LINES
}

// The contents of a text, or its first fault; a faulty text changes nothing.
pub fn parse(
    text: &[u8],
    by: Notation,
    words: &mut [u64],
    values: &mut [u64],
    errors: &mut [i64],
) -> Result<Contents, Fault>
    ensures { ParsePromise by text.now words.old values.old errors.old result words.new values.new errors.new }
{
    if !has_room(words.len(), values.len(), errors.len()) {
        return Err(Fault {
            line: 0,
            wrong: Wrong::NoRoom,
        });
    }
    check(text, by)?;
    fill(text, by, words, values, errors)
}
