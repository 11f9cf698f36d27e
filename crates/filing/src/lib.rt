// The tally of working files that stand in a row: each is judged as at the desk, and added.
#![tactic(auto)]

ghost use Rattle.std.specs.Prelude.{◌≡◌};
ghost use Rattle.season.specs.Tally.{no_tally};
ghost use Rattle.season.specs.Add.{AddPromise};
ghost use Rattle.filing.specs.Filing.{content_entry, file_entry, first_of, files_of};

use season::{HandedBack, Judged, Tally};
use steps::Answers;
use workfile::Plan;

// The first file of a row as it is added, and where the next begins.
#[derive(Clone, Copy)]
struct First {
    entry: Option<Judged>,
    next: usize,
}

// A file's content, judged by the desk's steps; none where it was refused.
#[tactic(auto, unfolding(crate::specs::Filing::content_entry))]
fn content_entry(plan: Plan, words: &[u64], ledger: &[u64], errors: &[i64]) -> Option<Judged>
    ensures { result ≡ content_entry plan words.now ledger.now errors.now }
{
    let Answers {
        planned,
        judgement,
        ..
    } = steps::steps(false, plan, words, ledger, errors).ok()?;
    Some(Judged {
        level: planned.level,
        book: planned.total,
        limit: judgement.upper_limit,
        verdict: judgement.verdict,
    })
}

// A file, judged; one that breaks a rule was refused too. Its content stands in buffers of fixed length, as at the desk: no heap.
fn file_entry(file: &[u8]) -> Option<Judged>
    ensures { result ≡ file_entry file.now }
{
    let mut words = [0u64; workfile::MOST_WORDS];
    let mut values = [0u64; workfile::MOST_FILE_LINES];
    let mut errors = [0i64; workfile::MOST_FILE_LINES];
    match reader::read(file, &mut words, &mut values, &mut errors) {
        Err(_) => None,
        Ok(contents) => {
            let plan = Plan {
                level: contents.level,
                te: contents.te,
                ae: contents.ae,
            };
            let words = &words[..contents.words as usize];
            let lines = contents.lines as usize;
            content_entry(plan, words, &values[..lines], &errors[..lines])
        }
    }
}

// The first file of a row ends with its Z. Where one breaks a rule nobody knows where it ends, so it is the last.
fn first_file(row: &[u8]) -> First
    ensures { result ≡ first_of row.now }
{
    let stopped = reader::pass(row);
    if stopped.ends {
        let next = stopped.at + 13;
        return First {
            entry: file_entry(&row[..next]),
            next,
        };
    }
    First {
        entry: None,
        next: row.len(),
    }
}

// The tally of all files of a row; or the first refusal of a tally, and none beside it. By place: a file moves on by its own length.
pub fn tally_files(files: &[u8]) -> HandedBack
    ensures { AddPromise no_tally (files_of files.now) result }
{
    let mut tally = Tally::none();
    let mut at: usize = 0;
    while at < files.len() {
        let First { entry, next } = first_file(&files[at..]);
        let handed = tally.add(entry);
        match handed.answer {
            Ok(()) => {
                tally = handed.tally;
                at += next;
            }
            Err(why) => {
                return HandedBack {
                    answer: Err(why),
                    tally: Tally::none(),
                };
            }
        }
    }
    HandedBack {
        answer: Ok(()),
        tally,
    }
}
