// The projected lines: the projection, and what each line projects, with the sign of its error.
#![tactic(auto)]

ghost use Rattle.std.specs.Prelude.{◌≡◌, ◌≤◌};
ghost use Rattle.terms.specs.Limits.{most_interval};
ghost use Rattle.signed.specs.declared.Part.TheVariants.{Size};
ghost use Rattle.signed.specs.Errors.{size_of};
ghost use Rattle.project.specs.Project.{lines_with};
ghost use Rattle.project.specs.Gather.{line_at};
ghost use Rattle.lines.specs.Each.{projects, amounts_with, projects_at, length_beside, Writable, LinesPromise};

use project::{Entered, Projection, State};
use terms::{Cent, Item, Refusal};
use walk::Ahead;

// The length that is judged beside the ledger's: that of the errors where it differs, and else that of the amounts.
fn length_beside(ledger: usize, errors: usize, amounts: usize) -> usize
    ensures { result ≡ length_beside ledger errors amounts }
{
    if errors == ledger { amounts } else { errors }
}

// The size of what a line projects: that of its error where it is full, its amount where it is drawn, 0 elsewhere.
#[tactic(auto, using(crate::proofs::Writing::projects_none, crate::proofs::Writing::projects_amount, crate::proofs::Writing::projects_error))]
fn projected(value: u64, error: u64, interval: u64, next: Ahead) -> u64
    requires { (error ≤ value) × (interval ≤ most_interval) }
    ensures { result ≡ projects (line_at interval next.0 value error) }
{
    let line = project::line_of(value, error, interval, next);
    match line.state {
        State::NotDrawn => 0,
        State::Drawn(amount) => amount,
        State::Full => line.error,
    }
}

// What a line projects, with the sign of its error; without an error it is nothing.
fn signed_amount(value: u64, error: i64, interval: u64, next: Ahead) -> i64
    requires { (size_of error ≤ value) × (interval ≤ most_interval) }
    ensures { result ≡ projects_at interval next.0 value error }
{
    if error == 0 {
        return 0;
    }
    let amount = projected(value, signed::size_of(error), interval, next);
    signed::signed_of(amount, error < 0)
}

// Writes what each line projects, walking along the lines a second time.
fn write_amounts(entered: Entered, amounts: &mut [i64])
    requires { Writable entered.interval entered.ledger.now entered.errors.now amounts.old }
    ensures { amounts.new ≡ amounts_with entered.entry.errors.now (lines_with Size entered.entry.interval entered.entry.start.0 entered.entry.ledger.now entered.entry.errors.now) }
{
    let mut next = Ahead(entered.start.0);
    for (item, value) in entered.ledger.iter().enumerate() {
        amounts[item] = signed_amount(*value, entered.errors[item], entered.interval, next);
        next = walk::step_over(*value, entered.interval, next);
    }
}

// The projection, and the amounts, which a refusal leaves as they were: nothing is written before every line has passed.
#[tactic(auto, unfolding(crate::specs::Each::project_lines_of, crate::specs::Each::lines_for))]
pub fn project_lines(
    ledger: &[u64],
    n: u64,
    start: u64,
    errors: &[i64],
    amounts: &mut [i64],
) -> Result<Projection, Refusal>
    ensures { LinesPromise ledger.now n start errors.now amounts.old result amounts.new }
{
    let start = Cent(start);
    let beside = length_beside(ledger.len(), errors.len(), amounts.len());
    let figures = split::figures_for(ledger, n, start, beside)?;
    let entered = Entered {
        first: Item(0),
        ledger,
        errors,
        interval: figures.interval,
        start,
    };
    let mut none = [0u64; 0];
    let sums = entered.gather(&mut none)?;
    write_amounts(entered, amounts);
    Ok(sums)
}
