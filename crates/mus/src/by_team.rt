// Two teams on one ledger: the split, the draw and findings by the acting team's own bits of the marks. A team is a byte, 0x41 or 0x42.
ghost use Rattle.teams.specs.Teams.{TeamSplitPromise, TeamDrawPromise, TeamPostPromise, TeamPostAllPromise};
ghost use Rattle.results.specs.Seen.{Sees};
ghost use Rattle.results.specs.Results.{split_seen, draw_seen};
ghost use Rattle.results.specs.Findings.{post_seen};

use results::{DrawResult, PostResult, SplitResult};

// A team's split, and the marks: in its own bits 2 for full, 0 for the others.
#[unsafe(no_mangle)]
pub extern "C" fn mus_team_split(team: u8, ledger: &[u64], n: u64, marks: &mut [u8]) -> SplitResult
    ensures { Sees split_seen (λ a. TeamSplitPromise team ledger.now n marks.old a marks.new) result }
{
    teams::team_split(team, ledger, n, marks).into()
}

// A team's draw, and the marks: in its own bits 1 for drawn, 2 for full, 0 for the others.
#[unsafe(no_mangle)]
pub extern "C" fn mus_team_draw(
    team: u8,
    ledger: &[u64],
    n: u64,
    start: u64,
    marks: &mut [u8],
) -> DrawResult
    ensures { Sees draw_seen (λ a. TeamDrawPromise team ledger.now n start marks.old a marks.new) result }
{
    teams::team_draw(team, ledger, n, start, marks).into()
}

// One finding of a team: the error of a line.
#[unsafe(no_mangle)]
pub extern "C" fn mus_team_post(
    team: u8,
    ledger: &[u64],
    marks: &[u8],
    errors: &mut [i64],
    line: u64,
    error: i64,
) -> PostResult
    ensures { Sees post_seen (λ a. TeamPostPromise team ledger.now marks.now errors.old line error a errors.new) result }
{
    teams::team_post(team, ledger, marks, errors, line, error).into()
}

// A batch of a team's findings: the pairs before a refused one stay posted.
#[unsafe(no_mangle)]
pub extern "C" fn mus_team_post_all(
    team: u8,
    ledger: &[u64],
    marks: &[u8],
    errors: &mut [i64],
    lines: &[u64],
    found: &[i64],
) -> PostResult
    ensures { Sees post_seen (λ a. TeamPostAllPromise team ledger.now marks.now errors.old lines.now found.now a errors.new) result }
{
    teams::team_post_all(team, ledger, marks, errors, lines, found).into()
}
