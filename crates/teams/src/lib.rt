// Two teams on one ledger, which keep their marks in one table: the operations that read or write marks, by the acting team's own bits.
#![tactic(auto)]

ghost use Rattle.std.specs.Prelude.{◌<◌, ◌≡◌, eqb, length};
ghost use Rattle.terms.specs.Outcome.{says};
ghost use Rattle.terms.specs.Numbers.{pick};
ghost use Rattle.split.specs.Split.{full_mark, full_marks, SplitPromise};
ghost use Rattle.draw.specs.Draw.{DrawPromise};
ghost use Rattle.bits.specs.Own.{with_bits};
ghost use Rattle.teams.specs.Teams.{team_of, OnBits, mark_at, OwnMarked, TeamSplitPromise, TeamDrawPromise, TeamPostPromise, TeamPostAllPromise};

use bits::Bits;
use split::Figures;
use terms::{Cent, Refusal};
use walk::Ahead;

// Team A, the byte 0x41, has bits 0 and 1 of each mark, team B, 0x42, bits 2 and 3.
#[tactic(auto, unfolding(crate::specs::Teams::team_of))]
fn team_of(team: u8) -> Result<Bits, Refusal>
    ensures { says result ≡ team_of team }
{
    match team {
        0x41 => Ok(Bits::Low),
        0x42 => Ok(Bits::High),
        _ => Err(Refusal::UnknownTeam),
    }
}

// The split's mark of a line: 2 for full, 0 for the others.
fn full_mark(value: u64, interval: u64) -> u8
    ensures { (result ≡ full_mark interval value) × (result < 4) }
{
    if value > interval { 2 } else { 0 }
}

// Writes the split's marks into the own bits. By index: `marks` is written beside the ledger that is read, and a zip of the two is not proved.
fn mark_full(bits: Bits, ledger: &[u64], interval: u64, marks: &mut [u8])
    requires { length marks.old ≡ length ledger.now }
    ensures { marks.new ≡ with_bits bits marks.old (full_marks interval ledger.now) }
{
    for (line, value) in ledger.iter().enumerate() {
        marks[line] = bits.with_own(marks[line], full_mark(*value, interval));
    }
}

// The split by the own bits.
fn split_by(bits: Bits, ledger: &[u64], n: u64, marks: &mut [u8]) -> Result<Figures, Refusal>
    ensures { OnBits (SplitPromise ledger.now n) bits marks.old result marks.new }
{
    let figures = split::split_figures(ledger, n, marks.len())?;
    mark_full(bits, ledger, figures.interval, marks);
    Ok(figures)
}

// A team's split: its answer, and the marks, of which a refusal leaves every bit.
pub fn team_split(team: u8, ledger: &[u64], n: u64, marks: &mut [u8]) -> Result<Figures, Refusal>
    ensures { TeamSplitPromise team ledger.now n marks.old result marks.new }
{
    let bits = team_of(team)?;
    split_by(bits, ledger, n, marks)
}

// The draw's mark of a line from whose first cent the next drawing point is `next` cents on: 2 for full, 1 for drawn, 0 for the others.
#[tactic(auto, unfolding(crate::specs::Teams::mark_at))]
fn mark_of(value: u64, interval: u64, next: Ahead) -> u8
    ensures { (result ≡ mark_at interval next.0 value) × (result < 4) }
{
    if value > interval {
        2
    } else if next.0 < value {
        1
    } else {
        0
    }
}

// What a mark adds to the count of the drawn lines.
fn one_drawn(mark: u8) -> u64
    ensures { (result ≡ pick (eqb mark 1) 1 0) × (result < 2) }
{
    if mark == 1 { 1 } else { 0 }
}

// Writes the draw's marks into the own bits, by index as above, and answers how many lines are drawn.
fn mark_drawn(bits: Bits, ledger: &[u64], interval: u64, start: Cent, marks: &mut [u8]) -> u64
    requires { length marks.old ≡ length ledger.now }
    ensures { OwnMarked bits interval start.0 ledger.now marks.old result marks.new }
{
    let mut next = Ahead(start.0);
    let mut drawn: u64 = 0;
    for (line, value) in ledger.iter().enumerate() {
        let value = *value;
        let mark = mark_of(value, interval, next);
        marks[line] = bits.with_own(marks[line], mark);
        drawn += one_drawn(mark);
        next = walk::step_over(value, interval, next);
    }
    drawn
}

// The draw by the own bits.
fn draw_by(bits: Bits, ledger: &[u64], n: u64, start: u64, marks: &mut [u8]) -> Result<u64, Refusal>
    ensures { OnBits (DrawPromise ledger.now n start) bits marks.old result marks.new }
{
    let first = Cent(start);
    let figures = split::figures_for(ledger, n, first, marks.len())?;
    Ok(mark_drawn(bits, ledger, figures.interval, first, marks))
}

// A team's draw: how many lines it draws, and the marks, of which a refusal leaves every bit.
pub fn team_draw(
    team: u8,
    ledger: &[u64],
    n: u64,
    start: u64,
    marks: &mut [u8],
) -> Result<u64, Refusal>
    ensures { TeamDrawPromise team ledger.now n start marks.old result marks.new }
{
    let acting = team_of(team)?;
    draw_by(acting, ledger, n, start, marks)
}

// One finding of a team, by its own bits.
pub fn team_post(
    team: u8,
    ledger: &[u64],
    marks: &[u8],
    errors: &mut [i64],
    line: u64,
    error: i64,
) -> Result<u64, Refusal>
    ensures { TeamPostPromise team ledger.now marks.now errors.old line error result errors.new }
{
    let bits = team_of(team)?;
    findings::post_by(bits, ledger, marks, errors, line, error)
}

// A batch of a team's findings, by its own bits.
pub fn team_post_all(
    team: u8,
    ledger: &[u64],
    marks: &[u8],
    errors: &mut [i64],
    lines: &[u64],
    found: &[i64],
) -> Result<u64, Refusal>
    ensures { TeamPostAllPromise team ledger.now marks.now errors.old lines.now found.now result errors.new }
{
    let bits = team_of(team)?;
    findings::post_all_by(bits, ledger, marks, errors, lines, found)
}
