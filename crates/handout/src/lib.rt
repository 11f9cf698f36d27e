// The sheet of a ledger in strata: its text, from a content.
#![tactic(auto)]

mod lines; // lines.rt: the lines of the sheet

ghost use Rattle.std.specs.Prelude.{◌≡◌, ◌≤◌, length};
ghost use Rattle.terms.specs.Outcome.{says};
ghost use Rattle.pen.specs.Page.{Wrote};
ghost use Rattle.handout.specs.Handout.{handout_of, handout_text, room_for};

use pen::Pen;
use starts::Starts;
use strata::Planned;
use stratified::projection::{ProjectedStrata, project_strata};
use terms::Refusal;

// The plan, the strata's starts with the words that each has read, and the projection.
#[derive(Clone, Copy)]
pub struct Answers {
    pub plan: Planned,
    pub chosen: Starts,
    pub sums: ProjectedStrata,
}

// What the operations answer on a content, one after the other.
fn answers_of(
    draws: u64,
    counts: &[u64],
    words: &[u64],
    ledger: &[u64],
    errors: &[i64],
) -> Result<Answers, Refusal>
    ensures { says result ≡ handout_of draws counts.now words.now ledger.now errors.now }
{
    let strata = counts.len();
    let plan = strata::plan_lent(ledger, counts, draws, errors.len() == ledger.len())?;
    let chosen = starts::starts_of(&plan.rows[..strata], words)?;
    let sums = project_strata(ledger, counts, draws, &chosen.starts[..strata], errors)?;
    Ok(Answers { plan, chosen, sums })
}

// The text of a content, from the pen's place on: the line of a refusal, or the sheet.
pub fn print_handout(
    pen: Pen,
    page: &mut [u8],
    draws: u64,
    counts: &[u64],
    words: &[u64],
    ledger: &[u64],
    errors: &[i64],
) -> Pen
    ensures wrote { Wrote page.old pen.at (handout_text draws counts.now words.now ledger.now errors.now) page.new result.at }
    ensures errors_len_bound { length (handout_text draws counts.now words.now ledger.now errors.now) ≤ room_for (length ledger.now) (length counts.now) }
{
    match answers_of(draws, counts, words, ledger, errors) {
        Err(why) => sheet::lines::refused_line(pen, page, why),
        Ok(answers) => lines::answers_text(pen, page, draws, counts, ledger, errors, answers),
    }
}
