// The tally of a season.
ghost use Rattle.std.specs.Prelude.{◌≡◌};
ghost use Rattle.season.specs.Tally.{no_tally};
ghost use Rattle.season.specs.Add.{add_of, AddPromise};
ghost use Rattle.results.specs.Seen.{Shows};
ghost use Rattle.results.specs.Season.{entry_from, tally_seen};

use results::TallyResult;
use season::Tally;

// The tally before the first judgement.
#[unsafe(no_mangle)]
pub extern "C" fn mus_tally_none() -> Tally
    ensures { result ≡ no_tally }
{
    Tally::none()
}

// The tally with one judgement more, or as it was with the refusal beside it.
#[unsafe(no_mangle)]
pub extern "C" fn mus_tally_add(
    tally: Tally,
    level: u8,
    book: u64,
    limit: u64,
    verdict: u64,
) -> TallyResult
    ensures { Shows tally_seen (AddPromise tally (add_of tally (entry_from level book limit verdict))) result }
{
    results::tally::add(tally, level, book, limit, verdict).into()
}
