// A case of the tally of a season: so many that were refused are added to the empty tally, then the judgements of the words, four numbers each.
use feed::fields::Case;
use feed::lines::Digests;
use feed::{lines, rooms};
use results::TallyResult;
use season::Tally;
use std::io;

// The result of the last judgement, and the digest of all of them.
#[derive(Clone, Copy)]
struct Season {
    last: TallyResult,
    digest: u64,
}

// The digest with a result: its refusal, its place and every figure of the tally.
fn digest_result(digest: u64, r: TallyResult) -> u64 {
    let tally = r.tally;
    let told = rooms::digest_on(digest, &[r.refusal, r.place]);
    let counted = rooms::digest_on(told, &tally.counts);
    let sums = [
        tally.books,
        tally.limits,
        tally.refused,
        tally.added,
        tally.worst,
        tally.worst_limit,
        tally.worst_book,
    ];
    rooms::digest_on(counted, &sums)
}

// The tally with so many that were refused.
fn with_refused(count: u64) -> Tally {
    let mut tally = Tally::none();
    for _ in 0..count {
        tally = tally.add(None).tally;
    }
    tally
}

// The judgements of the words, one after the other.
fn add_all(tally: Tally, words: &[u64]) -> Season {
    let mut last = TallyResult {
        refusal: 0,
        place: 0,
        tally,
    };
    let mut digest: u64 = 1;
    for judged in words.chunks_exact(4) {
        let level = (judged[0] % 256) as u8;
        last = calls::tally_add(last.tally, level, judged[1], judged[2], judged[3]);
        digest = digest_result(digest, last);
    }
    Season { last, digest }
}

pub fn run(rt: &impl Print, number: u64, case: Case, numbers: &mut [u64]) -> io::Result<()> {
    let words = case.words.alone(numbers);
    let Season { last, digest } = add_all(with_refused(case.first), words);
    let digests = Digests::with_rows(digest, &[], &[], words);
    lines::tell(rt, number, case.operation, calls::of_tally(last), digests)
}
