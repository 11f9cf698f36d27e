// A ledger in strata: the checks, the strata's book values, their shares of the draws, and each stratum's own split.
#![tactic(auto)]

pub mod starts; // starts.rt: the start of each stratum

ghost use Rattle.std.specs.Prelude.{◌≡◌, true, ◌<◌, ◌^◌, [], eqb};
ghost use Rattle.terms.specs.Numbers.{sum, pad_to};
ghost use Rattle.terms.specs.Limits.{most_strata};
ghost use Rattle.terms.specs.Outcome.{says, left};
ghost use Rattle.strata.specs.Strata.{parts_of, books_of, no_row, row_of, rows_of, plan_with, checked_of, plan_of, plan_from, PlanPromise};
ghost use Rattle.strata.specs.Steps.{Judged, Sharing};

use split::{Book, Figures};
use terms::Refusal;

// A stratum's draws and its own split; all 0 where it has no book value.
#[derive(Clone, Copy)]
pub struct Row {
    pub draws: u64,
    pub figures: Figures,
}

// The row of a stratum without book value, and past the last.
const NO_ROW: Row = Row {
    draws: 0,
    figures: Figures {
        interval: 0,
        draws_left: 0,
        sampled_total: 0,
        full_lines: 0,
        full_total: 0,
    },
};

// How many strata there are, and their rows: all 0 past the last.
// An array for the most strata: the call takes no memory of its own, and C is given every row.
#[derive(Clone, Copy)]
pub struct Planned {
    pub strata: u64,
    pub rows: [Row; 32],
}

// A judged ledger in strata: line counts, not too many, that add to its lines.
#[derive(Clone, Copy)]
struct Strata<'a> {
    ledger: &'a [u64],
    counts: &'a [u64],
    total: u64,
    ghost judged: { Judged ledger.now counts.now total },
}

// Whether the line counts add to the ledger's lines. They are taken off, so that no sum passes 64 bits.
fn counts_add(counts: &[u64], lines: u64) -> bool
    ensures { result ≡ eqb (sum counts.now) lines }
{
    let mut left = lines;
    for count in counts {
        if *count > left {
            return false;
        }
        left -= *count;
    }
    left == 0
}

// The book value of a stratum's lines.
pub fn book_of(part: &[u64]) -> u64
    requires { sum part.now < 2 ^ 64 }
    ensures { result ≡ sum part.now }
{
    let mut total: u64 = 0;
    for value in part {
        total += *value;
    }
    total
}

// A stratum's row: the split of its own lines.
#[tactic(auto, unfolding(crate::specs::Strata::row_of))]
fn row_of(book: Book, draws: u64) -> Row
    requires { 0 < book.total → 0 < draws }
    ensures { result ≡ row_of book.entry.lines.now draws }
{
    if book.total == 0 {
        return NO_ROW;
    }
    Row {
        draws,
        figures: book.figures(draws),
    }
}

impl Strata<'_> {
    // The book values of the strata.
    #[tactic(auto, using(crate::proofs::Booking::booking_fits, crate::proofs::Booking::booking_end))]
    fn books(self) -> [u64; 32]
        ensures { result ≡ pad_to most_strata 0 (books_of (parts_of self.entry.counts.now self.entry.ledger.now)) }
    {
        let mut books = [0u64; 32];
        let mut rest = self.ledger;
        for (h, count) in self.counts.iter().enumerate() {
            let (part, later) = rest.split_at(*count as usize);
            books[h] = book_of(part);
            rest = later;
        }
        books
    }

    // The rows of the strata.
    #[tactic(auto, using(crate::proofs::Booking::rowing_end))]
    fn rows(self, books: [u64; 32], draws: [u64; 32]) -> [Row; 32]
        requires { Sharing self.ledger.now self.counts.now books draws }
        ensures { result ≡ pad_to most_strata no_row (rows_of (parts_of self.entry.counts.now self.entry.ledger.now) draws) }
    {
        let mut rows = [NO_ROW; 32];
        let mut rest = self.ledger;
        for (h, count) in self.counts.iter().enumerate() {
            let (part, later) = rest.split_at(*count as usize);
            let book = Book {
                lines: part,
                total: books[h],
            };
            rows[h] = row_of(book, draws[h]);
            rest = later;
        }
        rows
    }

    // The plan: 8, 23, or the rows.
    #[tactic(auto, unfolding(crate::specs::Strata::plan_from))]
    fn plan(self, n: u64) -> Result<Planned, Refusal>
        ensures { PlanPromise (plan_from (parts_of self.entry.counts.now self.entry.ledger.now) n) result }
    {
        if n == 0 {
            return Err(Refusal::NoDraws);
        }
        let books = self.books();
        if n < shares::with_value(books) {
            return Err(Refusal::TooFewDraws);
        }
        let draws = shares::share_out(books, self.total, n);
        Ok(Planned {
            strata: self.counts.len() as u64,
            rows: self.rows(books, draws),
        })
    }
}

// The checks before the draws: 22, 30, and those of the whole ledger. `same` says whether the lists that are lent have their lengths.
#[tactic(auto, unfolding(crate::specs::Strata::checked_of))]
fn checked(ledger: &[u64], counts: &[u64], same: bool) -> Result<u64, Refusal>
    ensures { says result ≡ checked_of ledger.now counts.now same }
{
    if counts.is_empty() || counts.len() > terms::MOST_STRATA {
        return Err(Refusal::StrataOutOfRange);
    }
    if !counts_add(counts, ledger.len() as u64) {
        return Err(Refusal::CountsDoNotAdd);
    }
    ledger::judge_lent(ledger, same)
}

// The plan, with lists lent beside the ledger: what the draw and the projection by strata start from.
#[tactic(auto, unfolding(crate::specs::Strata::plan_of))]
pub fn plan_lent(ledger: &[u64], counts: &[u64], n: u64, same: bool) -> Result<Planned, Refusal>
    ensures { PlanPromise (plan_of ledger.now counts.now n same) result }
{
    let total = checked(ledger, counts, same)?;
    let strata = Strata {
        ledger,
        counts,
        total,
    };
    strata.plan(n)
}

// The plan of a ledger in strata: each stratum's draws, and the figures of its own split.
pub fn plan(ledger: &[u64], counts: &[u64], n: u64) -> Result<Planned, Refusal>
    ensures { PlanPromise (plan_of ledger.now counts.now n true) result }
{
    plan_lent(ledger, counts, n, true)
}

// The plan, or no strata and no row where it is refused.
pub fn plan_or_none(plan: Result<Planned, Refusal>) -> Planned
    ensures { result ≡ left (λ p. p) (plan_with []) (says plan) }
{
    plan.unwrap_or(Planned {
        strata: 0,
        rows: [NO_ROW; 32],
    })
}
