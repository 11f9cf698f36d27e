// The tally of a season: nine rows of three counts, the sums of the books and of the limits, and the place of the largest share.
#![tactic(auto)]

ghost use Rattle.std.specs.Prelude.{◌≡◌, ◌<◌, get_or};
ghost use Rattle.terms.specs.Limits.{most_judgements};
ghost use Rattle.terms.specs.Outcome.{says};
ghost use Rattle.season.specs.Tally.{column_of, cell_of, leads_of, no_tally};
ghost use Rattle.season.specs.Add.{entry_of, settled_of, add_of, AddPromise};

use factors::Level;
use judge::{Judgement, Verdict};
use terms::Refusal;

// A judgement: the level's percent, the total of the book that was judged, the upper limit and the verdict.
#[derive(Clone, Copy)]
pub struct Judged {
    pub level: u8,
    pub book: u64,
    pub limit: u64,
    pub verdict: Verdict,
}

// Three counts a level: below, inconclusive, above. The sums, the refused ones and all that were added. The place of the largest share, with its
// limit and its book; the book is 0 while there is none.
#[repr(C)]
#[derive(Clone, Copy)]
pub struct Tally {
    pub counts: [u64; 27],
    pub books: u64,
    pub limits: u64,
    pub refused: u64,
    pub added: u64,
    pub worst: u64,
    pub worst_limit: u64,
    pub worst_book: u64,
}

// Whether one more was added, and the tally with it. No Result of a tally: `AddPromise` hands the tally back as it was on a refusal too.
#[derive(Clone, Copy)]
pub struct HandedBack {
    pub answer: Result<(), Refusal>,
    pub tally: Tally,
}

// A judgement at a level, of a book with this total, as it is added to a tally; none for one that was refused.
#[tactic(auto, unfolding(crate::specs::Add::entry_of))]
pub fn entry_of(level: u8, book: u64, answer: Result<Judgement, Refusal>) -> Option<Judged>
    ensures { result ≡ entry_of level book answer }
{
    let judgement = answer.ok()?;
    Some(Judged {
        level,
        book,
        limit: judgement.upper_limit,
        verdict: judgement.verdict,
    })
}

// The column of a verdict.
fn column(verdict: Verdict) -> usize
    ensures { result ≡ column_of verdict }
{
    match verdict {
        Verdict::Below => 0,
        Verdict::Inconclusive => 1,
        Verdict::Above => 2,
    }
}

// The place of a level and a verdict among the counts.
#[tactic(auto, using(factors::proofs::Percents::row_lt, crate::proofs::Cells::column_lt), unfolding(crate::specs::Tally::cell_of))]
fn cell(level: Level, verdict: Verdict) -> usize
    ensures { result ≡ cell_of level verdict }
{
    level.row() * 3 + column(verdict)
}

// Whether a share is above the largest so far, or the first.
#[tactic(auto, unfolding(crate::specs::Tally::leads_of))]
fn leads(limit: u64, book: u64, worst_limit: u64, worst_book: u64) -> bool
    requires { 0 < book }
    ensures { result ≡ leads_of limit book worst_limit worst_book }
{
    worst_book == 0 || ratio::share_exceeds(limit, book, worst_limit, worst_book)
}

impl Tally {
    // Before the first judgement.
    #[tactic(auto, unfolding(crate::specs::Tally::no_tally))]
    pub fn none() -> Tally
        ensures { result ≡ no_tally }
    {
        Tally {
            counts: [0; 27],
            books: 0,
            limits: 0,
            refused: 0,
            added: 0,
            worst: 0,
            worst_limit: 0,
            worst_book: 0,
        }
    }

    // How many judgements have a level and a verdict.
    pub fn count(self, level: Level, verdict: Verdict) -> u64
        ensures { result ≡ get_or self.counts (cell_of level verdict) 0 }
    {
        self.counts[cell(level, verdict)]
    }

    // The tally with one judgement more at a place of the counts, or 28 where a sum would pass 64 bits. A count is a sum too: of ones.
    #[tactic(auto, unfolding(crate::specs::Add::settled_of, crate::specs::Tally::passes_of, crate::specs::Tally::with_judged))]
    fn settled(self, at: usize, judged: Judged) -> Result<Tally, Refusal>
        requires { (at < 27) × (self.added < most_judgements) × (0 < judged.book) }
        ensures { says result ≡ settled_of self at judged }
    {
        let books = self
            .books
            .checked_add(judged.book)
            .ok_or(Refusal::SumTooLarge)?;
        let limits = self
            .limits
            .checked_add(judged.limit)
            .ok_or(Refusal::SumTooLarge)?;
        let count = self.counts[at].checked_add(1).ok_or(Refusal::SumTooLarge)?;
        let mut after = Tally {
            books,
            limits,
            added: self.added + 1,
            ..self
        };
        after.counts[at] = count;
        if leads(judged.limit, judged.book, self.worst_limit, self.worst_book) {
            after.worst = self.added;
            after.worst_limit = judged.limit;
            after.worst_book = judged.book;
        }
        Ok(after)
    }

    // The tally with one entry more, or the first refusal: 27, 1, 5, 28.
    #[tactic(auto, unfolding(crate::specs::Add::add_of, crate::specs::Add::judged_of, crate::specs::Add::at_level, crate::specs::Tally::with_not_judged))]
    fn with_entry(self, entry: Option<Judged>) -> Result<Tally, Refusal>
        ensures { says result ≡ add_of self entry }
    {
        if self.added >= terms::MOST_JUDGEMENTS || self.refused >= terms::MOST_JUDGEMENTS {
            return Err(Refusal::TooManyJudgements);
        }
        let Some(judged) = entry else {
            return Ok(Tally {
                refused: self.refused + 1,
                added: self.added + 1,
                ..self
            });
        };
        let level = Level::from_percent(judged.level)?;
        if judged.book == 0 {
            return Err(Refusal::TotalZero);
        }
        self.settled(cell(level, judged.verdict), judged)
    }

    // The tally with one entry more, or as it was with the refusal beside it.
    pub fn add(self, entry: Option<Judged>) -> HandedBack
        ensures { AddPromise self (add_of self entry) result }
    {
        match self.with_entry(entry) {
            Ok(tally) => HandedBack {
                answer: Ok(()),
                tally,
            },
            Err(why) => HandedBack {
                answer: Err(why),
                tally: self,
            },
        }
    }
}
