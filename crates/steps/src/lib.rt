// The steps in the desk program's order, each from the answers of those before it.
#![tactic(auto)]

ghost use Rattle.judge.specs.Judge.{JudgePromise};
ghost use Rattle.steps.specs.Steps.{StepsPromise};

use factors::Level;
use judge::Judgement;
use split::Figures;
use start::Chosen;
use terms::Refusal;
use workfile::Plan;

// The plan, with the ledger's total and the number of draws.
#[derive(Clone, Copy)]
pub struct Planned {
    pub level: u8,
    pub total: u64,
    pub te: u64,
    pub ae: u64,
    pub draws: u64,
}

// What the steps have answered: every figure of the sheet but the lines.
#[derive(Clone, Copy)]
pub struct Answers {
    pub planned: Planned,
    pub figures: Figures,
    pub chosen: Chosen,
    pub judgement: Judgement,
}

// The judgement by the first method or by the blackboard's, which have one promise: a closure would need it as a law, and be no plainer.
fn judge_by(
    board: bool,
    planned: Planned,
    ledger: &[u64],
    errors: &[i64],
    start: u64,
) -> Result<Judgement, Refusal>
    ensures { JudgePromise planned.level ledger.now planned.draws start errors.now planned.te result }
{
    let Planned {
        level,
        draws,
        te,
        ..
    } = planned;
    if board {
        boardjudge::judge(level, ledger, draws, start, errors, te)
    } else {
        judge::judge(level, ledger, draws, start, errors, te)
    }
}

// All steps, with their refusals in the documents' order: 1, the ledger's, 6 and 7, 8, 12, 14 and 15, 16. With `board` the judgement goes by
// the blackboard method, and nothing else changes.
#[tactic(auto, using(crate::proofs::Accepted::steps_promised), unfolding(crate::specs::Steps::steps_of, crate::specs::Steps::totalled_from, crate::specs::Steps::sized_from, crate::specs::Steps::split_from, crate::specs::Steps::started_from, crate::specs::Steps::judged_from))]
pub fn steps(
    board: bool,
    plan: Plan,
    words: &[u64],
    ledger: &[u64],
    errors: &[i64],
) -> Result<Answers, Refusal>
    ensures { StepsPromise plan words.now ledger.now errors.now result }
{
    let Plan { level, te, ae } = plan;
    Level::from_percent(level)?;
    let total = ledger::judge_ledger(ledger, errors.len())?;
    let draws = size::size(level, total, te, ae)?;
    let figures = split::split_figures(ledger, draws, errors.len())?;
    let chosen = start::start(figures.interval, words)?;
    let planned = Planned {
        level,
        total,
        te,
        ae,
        draws,
    };
    let judgement = judge_by(board, planned, ledger, errors, chosen.start)?;
    Ok(Answers {
        planned,
        figures,
        chosen,
        judgement,
    })
}
