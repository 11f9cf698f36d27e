// The lines of the sheet, each written from the pen's place on.
ghost use Rattle.std.specs.Prelude.{◌+◌, ◌*◌, ◌≤◌, [], ◌∷◌, length};
ghost use Rattle.terms.specs.Limits.{most_interval};
ghost use Rattle.terms.specs.Refusals.{number, place};
ghost use Rattle.signed.specs.declared.Part.TheVariants.{Size};
ghost use Rattle.signed.specs.Errors.{size_of, is_under};
ghost use Rattle.pen.specs.Page.{Wrote};
ghost use Rattle.pen.specs.Text.{sized_text, signed_text, more};
ghost use Rattle.project.specs.Gather.{line_with};
ghost use Rattle.steps.specs.Steps.{Shown};
ghost use Rattle.sheet.specs.Lines.{plan_line, split_line, start_line, entry_line, item_text, ledger_text, project_line, verdict_word, judge_line, refused_line, opening_text, closing_text, answers_text};

use crate::walked::lines_by;
use judge::{Judgement, Verdict};
use pen::Pen;
use project::{Line, Projection, State};
use split::Figures;
use start::Chosen;
use steps::{Answers, Planned};
use terms::{Cent, Item, Refusal};
use walk::Ahead;

fn plan_line(pen: Pen, page: &mut [u8], planned: Planned) -> Pen
    ensures { Wrote page.old pen.at (plan_line planned) page.new result.at }
{
    let Planned {
        level,
        total,
        te,
        ae,
        draws,
    } = planned;
    pen.line(page, b"plan", &[level as u64, total, te, ae, draws])
}

fn split_line(pen: Pen, page: &mut [u8], figures: Figures) -> Pen
    ensures { Wrote page.old pen.at (split_line figures) page.new result.at }
{
    let numbers = [
        figures.interval,
        figures.draws_left,
        figures.sampled_total,
        figures.full_lines,
        figures.full_total,
    ];
    pen.line(page, b"split", &numbers)
}

fn start_line(pen: Pen, page: &mut [u8], chosen: Chosen) -> Pen
    ensures { Wrote page.old pen.at (start_line chosen) page.new result.at }
{
    pen.line(page, b"start", &[chosen.start, chosen.words])
}

// The error and what it projects as the last of a line, with a minus where it is understated.
fn signed_words(pen: Pen, page: &mut [u8], under: bool, error: u64, projected: u64) -> Pen
    ensures { Wrote page.old pen.at (more (sized_text error under ∷ sized_text projected under ∷ [])) page.new result.at }
{
    pen.sized_field(page, error, under)
        .sized_field(page, projected, under)
        .byte(page, b'\n')
}

// The line of a word: item, value, error and what it projects.
fn entry_line(
    pen: Pen,
    page: &mut [u8],
    word: &[u8],
    item: u64,
    under: bool,
    line: Line,
    projected: u64,
) -> Pen
    ensures { Wrote page.old pen.at (entry_line word.now item line.value under line.error projected) page.new result.at }
{
    let placed = pen.text(page, word).fields(page, &[item, line.value]);
    signed_words(placed, page, under, line.error, projected)
}

// A drawn or full line; any other has none.
pub fn item_line(pen: Pen, page: &mut [u8], item: u64, under: bool, line: Line) -> Pen
    ensures { Wrote page.old pen.at (item_text item under line) page.new result.at }
{
    match line.state {
        State::NotDrawn => pen,
        State::Drawn(amount) => entry_line(pen, page, b"drawn", item, under, line, amount),
        State::Full => entry_line(pen, page, b"full", item, under, line, line.error),
    }
}

// One line of the ledger: its state goes by the size of its error, and its text by the sign too.
fn ledger_line(
    pen: Pen,
    page: &mut [u8],
    item: u64,
    value: u64,
    error: i64,
    interval: u64,
    next: Ahead,
) -> Pen
    requires { (size_of error ≤ value) × (interval ≤ most_interval) }
    ensures { Wrote page.old pen.at (item_text item (is_under error) (line_with Size interval next.0 value error)) page.new result.at }
{
    let line = project::line_of(value, signed::size_of(error), interval, next);
    item_line(pen, page, item, error < 0, line)
}

// The drawn and full lines, in ledger order, of lines of which the first has the number `first`.
pub fn ledger_lines(
    pen: Pen,
    page: &mut [u8],
    first: Item,
    ledger: &[u64],
    errors: &[i64],
    interval: u64,
    start: Cent,
) -> Pen
    requires { Shown first.0 interval ledger.now errors.now }
    ensures { Wrote page.old pen.at (ledger_text first.0 interval start.0 ledger.now errors.now) page.new result.at }
{
    let mut at = pen;
    let mut next = Ahead(start.0);
    for (item, value) in ledger.iter().enumerate() {
        let number = first.0 + item;
        at = ledger_line(
            at,
            page,
            number as u64,
            *value,
            errors[item],
            interval,
            next,
        );
        next = walk::step_over(*value, interval, next);
    }
    at
}

// The net as the last of a line.
pub fn net_word(pen: Pen, page: &mut [u8], net: i64) -> Pen
    ensures { Wrote page.old pen.at (more (signed_text net ∷ [])) page.new result.at }
{
    pen.sized_field(page, signed::size_of(net), net < 0)
        .byte(page, b'\n')
}

fn project_line(pen: Pen, page: &mut [u8], projection: Projection) -> Pen
    ensures { Wrote page.old pen.at (project_line projection) page.new result.at }
{
    let numbers = [
        projection.full,
        projection.sampled,
        projection.m,
        projection.under_full,
        projection.under_sampled,
    ];
    let summed = pen.text(page, b"project").fields(page, &numbers);
    net_word(summed, page, projection.net)
}

// The verdict's word as the last of a line.
fn verdict_word(pen: Pen, page: &mut [u8], verdict: Verdict) -> Pen
    ensures { Wrote page.old pen.at (more (verdict_word verdict ∷ [])) page.new result.at }
{
    match verdict {
        Verdict::Below => pen.text(page, b" below\n"),
        Verdict::Inconclusive => pen.text(page, b" inconclusive\n"),
        Verdict::Above => pen.text(page, b" above\n"),
    }
}

fn judge_line(pen: Pen, page: &mut [u8], judgement: Judgement) -> Pen
    ensures { Wrote page.old pen.at (judge_line judgement) page.new result.at }
{
    let limited = pen
        .text(page, b"judge")
        .field(page, judgement.precision)
        .field(page, judgement.upper_limit);
    verdict_word(limited, page, judgement.verdict)
}

// The one line of a refusal.
pub fn refused_line(pen: Pen, page: &mut [u8], why: Refusal) -> Pen
    ensures wrote { Wrote page.old pen.at (refused_line (number why) (place why)) page.new result.at }
    ensures why_len_bound { length (refused_line (number why) (place why)) ≤ 50 }
{
    let told = why.tell();
    pen.line(page, b"refused", &[told.number, told.place])
}

// The lines before those of the ledger.
fn opening_text(pen: Pen, page: &mut [u8], answers: Answers) -> Pen
    ensures { Wrote page.old pen.at (opening_text answers) page.new result.at }
{
    let planned = plan_line(pen, page, answers.planned);
    let parted = split_line(planned, page, answers.figures);
    start_line(parted, page, answers.chosen)
}

// The lines after those of the ledger.
fn closing_text(pen: Pen, page: &mut [u8], judgement: Judgement) -> Pen
    ensures { Wrote page.old pen.at (closing_text judgement) page.new result.at }
{
    let projected = project_line(pen, page, judgement.projection);
    judge_line(projected, page, judgement)
}

// The whole sheet of what the steps have answered, by either method.
pub fn answers_text(
    pen: Pen,
    page: &mut [u8],
    board: bool,
    answers: Answers,
    ledger: &[u64],
    errors: &[i64],
) -> Pen
    requires { Shown 0 answers.figures.interval ledger.now errors.now × (answers.chosen.start ≤ answers.figures.interval) }
    ensures wrote { Wrote page.old pen.at (answers_text ledger.now errors.now answers) page.new result.at }
    ensures answers_len_bound { length (answers_text ledger.now errors.now answers) ≤ 464 + 90 * length ledger.now }
{
    let interval = answers.figures.interval;
    let start = Cent(answers.chosen.start);
    let opened = opening_text(pen, page, answers);
    let listed = lines_by(opened, page, board, ledger, errors, interval, start);
    closing_text(listed, page, answers.judgement)
}
