// The lines of the sheet of a ledger in strata, each written from the pen's place on.
ghost use Rattle.std.specs.Prelude.{◌≡◌, ◌+◌, ◌*◌, ◌^◌, ◌≤◌, ◌<◌, length};
ghost use Rattle.terms.specs.Limits.{most_strata};
ghost use Rattle.terms.specs.Numbers.{sum};
ghost use Rattle.pen.specs.Page.{Wrote};
ghost use Rattle.strata.specs.Strata.{parts_of};
ghost use Rattle.strata.specs.Steps.{Parted};
ghost use Rattle.handout.specs.Lines.{plan_line, stratum_line, strata_text, drawn_text, sums_line, sums_text, all_line, any_error, errors_text, answers_text};
ghost use Rattle.handout.specs.Handout.{longest_for};
ghost use Rattle.handout.specs.Shows.{Shows};

use crate::Answers;
use pen::Pen;
use starts::Starts;
use strata::Row;
use stratified::projection::{ProjectedStrata, ProjectionRow};
use terms::{Cent, Item};

fn plan_line(pen: Pen, page: &mut [u8], draws: u64, strata: u64, total: u64) -> Pen
    ensures wrote { Wrote page.old pen.at (plan_line draws strata total) page.new result.at }
    ensures total_len_bound { length (plan_line draws strata total) ≤ 68 }
{
    pen.line(page, b"plan", &[draws, strata, total])
}

// The line of a stratum: its lines, its row of the plan, its start and the words read for it.
fn stratum_line(
    pen: Pen,
    page: &mut [u8],
    number: u64,
    part: &[u64],
    row: Row,
    start: u64,
    words: u64,
) -> Pen
    requires { sum part.now < 2 ^ 64 }
    ensures wrote { Wrote page.old pen.at (stratum_line number part.now row start words) page.new result.at }
    ensures words_len_bound { length (stratum_line number part.now row start words) ≤ 239 }
{
    let figures = row.figures;
    let numbers = [
        number,
        part.len() as u64,
        strata::book_of(part),
        row.draws,
        figures.interval,
        figures.draws_left,
        figures.sampled_total,
        figures.full_lines,
        figures.full_total,
        start,
        words,
    ];
    pen.line(page, b"stratum", &numbers)
}

// The lines of the strata.
fn strata_lines(
    pen: Pen,
    page: &mut [u8],
    ledger: &[u64],
    counts: &[u64],
    rows: [Row; 32],
    chosen: Starts,
) -> Pen
    requires { Parted ledger.now counts.now }
    ensures wrote { Wrote page.old pen.at (strata_text 0 (parts_of counts.now ledger.now) rows chosen.starts chosen.words) page.new result.at }
    ensures words_len_bound { length (strata_text 0 (parts_of counts.now ledger.now) rows chosen.starts chosen.words) ≤ 239 * length counts.now }
{
    let mut next = pen;
    let mut at: usize = 0;
    for (h, count) in counts.iter().enumerate() {
        let to = at + *count as usize;
        next = stratum_line(
            next,
            page,
            h as u64,
            &ledger[at..to],
            rows[h],
            chosen.starts[h],
            chosen.words[h],
        );
        at = to;
    }
    next
}

// The drawn and full lines of each stratum, at its own interval and start, numbered in the whole ledger.
// The lists stay apart: no struct of three loans of their own lifetimes is proved here.
fn drawn_lines(
    pen: Pen,
    page: &mut [u8],
    ledger: &[u64],
    counts: &[u64],
    rows: [Row; 32],
    starts: [u64; 32],
    errors: &[i64],
) -> Pen
    requires { Shows counts.now ledger.now errors.now rows }
    ensures { Wrote page.old pen.at (drawn_text 0 0 (parts_of counts.now ledger.now) rows starts (parts_of counts.now errors.now)) page.new result.at }
{
    let mut next = pen;
    let mut at: usize = 0;
    for (h, count) in counts.iter().enumerate() {
        let to = at + *count as usize;
        let interval = rows[h].figures.interval;
        let start = Cent(starts[h]);
        next = sheet::lines::ledger_lines(
            next,
            page,
            Item(at),
            &ledger[at..to],
            &errors[at..to],
            interval,
            start,
        );
        at = to;
    }
    next
}

// The sums of a stratum.
fn sums_line(pen: Pen, page: &mut [u8], number: u64, row: ProjectionRow) -> Pen
    ensures wrote { Wrote page.old pen.at (sums_line number row) page.new result.at }
    ensures row_len_bound { length (sums_line number row) ≤ 110 }
{
    let numbers = [
        number,
        row.full,
        row.sampled,
        row.under_full,
        row.under_sampled,
    ];
    pen.line(page, b"sums", &numbers)
}

// The sums of the strata.
fn sums_lines(pen: Pen, page: &mut [u8], strata: usize, rows: [ProjectionRow; 32]) -> Pen
    requires { strata ≤ most_strata }
    ensures wrote { Wrote page.old pen.at (sums_text strata 0 rows) page.new result.at }
    ensures rows_len_bound { length (sums_text strata 0 rows) ≤ 110 * strata }
{
    let mut next = pen;
    for h in 0..strata {
        next = sums_line(next, page, h as u64, rows[h]);
    }
    next
}

// The sums of all strata, with the net.
fn all_line(pen: Pen, page: &mut [u8], sums: ProjectedStrata) -> Pen
    ensures wrote { Wrote page.old pen.at (all_line sums) page.new result.at }
    ensures sums_len_bound { length (all_line sums) ≤ 68 }
{
    let summed = pen
        .text(page, b"all")
        .fields(page, &[sums.over, sums.under]);
    sheet::lines::net_word(summed, page, sums.net)
}

// Whether a line has an error.
fn any_error(errors: &[i64]) -> bool
    ensures { result ≡ any_error errors.now }
{
    for error in errors {
        if signed::size_of(*error) > 0 {
            return true;
        }
    }
    false
}

// The lines after those of the ledger, where a line has an error.
fn errors_text(
    pen: Pen,
    page: &mut [u8],
    strata: usize,
    errors: &[i64],
    sums: ProjectedStrata,
) -> Pen
    requires { strata ≤ most_strata }
    ensures wrote { Wrote page.old pen.at (errors_text strata errors.now sums) page.new result.at }
    ensures sums_len_bound { length (errors_text strata errors.now sums) ≤ 68 + 110 * strata }
{
    if any_error(errors) {
        let summed = sums_lines(pen, page, strata, sums.rows);
        return all_line(summed, page, sums);
    }
    pen
}

// The whole sheet of what the operations have answered.
pub fn answers_text(
    pen: Pen,
    page: &mut [u8],
    draws: u64,
    counts: &[u64],
    ledger: &[u64],
    errors: &[i64],
    answers: Answers,
) -> Pen
    requires { Shows counts.now ledger.now errors.now answers.plan.rows }
    ensures wrote { Wrote page.old pen.at (answers_text draws counts.now ledger.now errors.now answers) page.new result.at }
    ensures answers_len_bound { length (answers_text draws counts.now ledger.now errors.now answers) ≤ longest_for (length ledger.now) (length counts.now) }
{
    let Answers { plan, chosen, sums } = answers;
    let strata = counts.len();
    let planned = plan_line(pen, page, draws, strata as u64, strata::book_of(ledger));
    let listed = strata_lines(planned, page, ledger, counts, plan.rows, chosen);
    let drawn = drawn_lines(
        listed,
        page,
        ledger,
        counts,
        plan.rows,
        chosen.starts,
        errors,
    );
    errors_text(drawn, page, strata, errors, sums)
}
