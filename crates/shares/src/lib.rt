// How n draws are shared out over the strata of a ledger: one to each stratum with book value, the rest in proportion to book value.
// There are at most 32 strata: past the last, book values and draws are 0.
#![tactic(auto)]

ghost use Rattle.std.specs.Prelude.{◌≡◌, ◌+◌, ◌≤◌, ◌<◌, ◌^◌};
ghost use Rattle.terms.specs.Numbers.{sum};
ghost use Rattle.shares.specs.Shares.{first_draw, with_value, draws_before, remainder_of, largest_at, give_out, shares_of};
ghost use Rattle.shares.specs.Steps.{Shareable, Portionable, PortionsOf};

use terms::MOST_STRATA;

// A stratum's draws before any leftover draw, and its remainder.
#[derive(Clone, Copy)]
struct Portion {
    draws: u64,
    remainder: u64,
}

// The same of all strata, and how many draws are left over. Two arrays side by side: what is answered is the draws, whole.
#[derive(Clone, Copy)]
struct Portions {
    draws: [u64; MOST_STRATA],
    remainders: [u64; MOST_STRATA],
    leftover: u64,
}

impl Portions {
    // The leftover draws, one each to the largest remainders.
    #[tactic(auto, using(crate::proofs::Largest::at_inside, crate::proofs::Loops::handed_fits, crate::proofs::Loops::handing_end))]
    fn give_out(self) -> [u64; MOST_STRATA]
        requires { sum self.draws + self.leftover < 2 ^ 64 }
        ensures { result ≡ give_out self.leftover self.remainders self.draws }
    {
        let mut draws = self.draws;
        let mut remainders = self.remainders;
        for _given in 0..self.leftover {
            let stratum = largest_at(remainders);
            draws[stratum] += 1;
            remainders[stratum] = 0;
        }
        draws
    }
}

// One draw for a stratum with book value.
fn first_draw(book: u64) -> u64
    ensures { (result ≡ first_draw book) × (result ≤ 1) }
{
    if book == 0 { 0 } else { 1 }
}

// How many strata have book value.
pub fn with_value(books: [u64; MOST_STRATA]) -> u64
    ensures { result ≡ with_value books }
{
    books.iter().filter(|book| **book > 0).count() as u64
}

// A stratum's portion: one where it has value, and the whole part of rest × book / total.
#[tactic(auto, using(crate::proofs::Adding::portion_fits))]
fn portion_of(book: u64, total: u64, rest: u64) -> Portion
    requires { Portionable book total rest }
    ensures { (result.draws ≡ draws_before rest total book) × (result.remainder ≡ remainder_of rest total book) }
{
    let share = wide::scaled(rest, book, total);
    Portion {
        draws: first_draw(book) + share.whole,
        remainder: share.remainder,
    }
}

// The portions of all strata.
#[tactic(auto, using(crate::proofs::Portioning::portion_asks, crate::proofs::Portioning::portion_within))]
fn portions_of(books: [u64; MOST_STRATA], total: u64, n: u64) -> Portions
    requires { Shareable books total n }
    ensures { PortionsOf books n result }
{
    let rest = n - with_value(books);
    let mut draws = [0u64; MOST_STRATA];
    let mut remainders = [0u64; MOST_STRATA];
    let mut leftover = n;
    for (h, book) in books.iter().enumerate() {
        let portion = portion_of(*book, total, rest);
        draws[h] = portion.draws;
        remainders[h] = portion.remainder;
        leftover -= portion.draws;
    }
    Portions {
        draws,
        remainders,
        leftover,
    }
}

// The stratum with the largest remainder, the lower one on a tie.
fn largest_at(remainders: [u64; MOST_STRATA]) -> usize
    ensures { result ≡ largest_at remainders }
{
    let mut stratum: usize = 0;
    let mut largest: u64 = 0;
    for (h, remainder) in remainders.iter().enumerate() {
        if *remainder > largest {
            largest = *remainder;
            stratum = h;
        }
    }
    stratum
}

// The draws of each stratum. `total` is that of the book values, and each stratum with value can have a draw.
#[tactic(auto, using(crate::proofs::Portioning::portions_make))]
pub fn share_out(books: [u64; MOST_STRATA], total: u64, n: u64) -> [u64; MOST_STRATA]
    requires { Shareable books total n }
    ensures { result ≡ shares_of books n }
{
    portions_of(books, total, n).give_out()
}
