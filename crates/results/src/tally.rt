// The tally of a season, as C hands it in and sees it.
ghost use Rattle.std.specs.Prelude.{◌≡◌};
ghost use Rattle.season.specs.Add.{add_of, AddPromise};
ghost use Rattle.results.specs.Season.{entry_from, tally_seen};

use crate::{TallyResult, head};
use judge::Verdict;
use season::{HandedBack, Judged, Tally};
use terms::Told;

// A judgement by its verdict's number: any but 1, 2 and 3 stands for one that was refused.
#[tactic(auto, unfolding(crate::specs::Season::entry_from))]
fn entry_from(level: u8, book: u64, limit: u64, verdict: u64) -> Option<Judged>
    ensures { result ≡ entry_from level book limit verdict }
{
    let verdict = match verdict {
        1 => Verdict::Below,
        2 => Verdict::Inconclusive,
        3 => Verdict::Above,
        _ => return None,
    };
    Some(Judged {
        level,
        book,
        limit,
        verdict,
    })
}

// That judgement added.
#[tactic(auto, using(crate::proofs::Handed::added_from))]
pub fn add(tally: Tally, level: u8, book: u64, limit: u64, verdict: u64) -> HandedBack
    ensures { AddPromise tally (add_of tally (entry_from level book limit verdict)) result }
{
    tally.add(entry_from(level, book, limit, verdict))
}

impl From<HandedBack> for TallyResult {
    ghost from_gives = { λ handed r. r ≡ tally_seen handed };

    fn from(handed: HandedBack) -> TallyResult {
        let Told { number, place } = head(handed.answer);
        TallyResult {
            refusal: number,
            place,
            tally: handed.tally,
        }
    }
}
