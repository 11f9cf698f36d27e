// The confidence statement of a control test in figures: items, exceptions, and the upper bound in percent with two decimals; and the line that asks for it.
#![tactic(auto)]

ghost use Rattle.std.specs.Prelude.{◌≡◌, ◌∷◌, []};
ghost use Rattle.terms.specs.Outcome.{says};
ghost use Rattle.pen.specs.Page.{Wrote, Printed};
ghost use Rattle.pen.specs.Text.{more};
ghost use Rattle.confidence.specs.Confidence.{percent_text, statement_line, bound_text, statement_text, Stated};
ghost use Rattle.confidence.specs.Line.{StandsFor, asked_of, LinePromise};

use entry::{Numbers, Run, Wrong};
use pen::Pen;
use terms::Refusal;

// No statement is longer.
pub const LONGEST_STATEMENT: usize = 76;

// Hundredths of a percent, as 11.40.
fn put_percent(pen: Pen, page: &mut [u8], hundredths: u64) -> Pen
    ensures { Wrote page.old pen.at (percent_text hundredths) page.new result.at }
{
    pen.number(page, hundredths / 100)
        .byte(page, b'.')
        .number(page, hundredths % 100 / 10)
        .number(page, hundredths % 10)
}

// A space and the percent, at the end of a line.
fn end_line(pen: Pen, page: &mut [u8], hundredths: u64) -> Pen
    ensures { Wrote page.old pen.at (more (percent_text hundredths ∷ [])) page.new result.at }
{
    put_percent(pen.byte(page, b' '), page, hundredths).byte(page, b'\n')
}

fn statement_line(pen: Pen, page: &mut [u8], items: u64, exceptions: u64, hundredths: u64) -> Pen
    ensures { Stated page.old pen.at (statement_line items exceptions hundredths) page.new result.at }
{
    let filled = pen
        .text(page, b"statement")
        .fields(page, &[items, exceptions]);
    end_line(filled, page, hundredths)
}

// The statement, or the line of the bound's refusal.
fn put_bound(
    pen: Pen,
    page: &mut [u8],
    items: u64,
    exceptions: u64,
    answer: Result<u64, Refusal>,
) -> Pen
    ensures { Stated page.old pen.at (bound_text items exceptions (says answer)) page.new result.at }
{
    match answer {
        Err(why) => sheet::lines::refused_line(pen, page, why),
        Ok(hundredths) => statement_line(pen, page, items, exceptions, hundredths),
    }
}

fn put_statement(pen: Pen, page: &mut [u8], level: u8, tolerance: u8, exceptions: u64) -> Pen
    ensures { Stated page.old pen.at (statement_text level tolerance exceptions) page.new result.at }
{
    match attributes::size(level, tolerance) {
        Err(why) => sheet::lines::refused_line(pen, page, why),
        Ok(items) => put_bound(
            pen,
            page,
            items,
            exceptions,
            attributes::bound(level, tolerance, exceptions),
        ),
    }
}

// A number as a byte; a larger one as 0, since neither is a level or a tolerance.
fn byte_of(number: u64) -> u8
    ensures { StandsFor number result }
{
    u8::try_from(number).unwrap_or(0)
}

// The statement at the start of a page that holds every one, or the line of the first refusal; answers how many bytes it is.
pub fn print_statement(
    level: u64,
    tolerance: u64,
    exceptions: u64,
    page: &mut [u8; LONGEST_STATEMENT],
) -> usize
    ensures { Printed (statement_text level tolerance exceptions) page.old result page.new }
{
    put_statement(
        Pen { at: 0 },
        page,
        byte_of(level),
        byte_of(tolerance),
        exceptions,
    )
    .at
}

// The numbers of a text's first line.
fn asked(text: &[u8]) -> Result<Numbers, Wrong>
    ensures { result ≡ asked_of text.now }
{
    let end = entry::fields::reach(text, 0, Run::Line);
    entry::body::read_numbers(&text[..end], 0, 3)
}

// What the first line of a text asks for, at the start of the page, and how many bytes it is; where it is no line of level, tolerance and
// exceptions, the page stays as it is.
pub fn answer_line(text: &[u8], page: &mut [u8; LONGEST_STATEMENT]) -> Option<usize>
    ensures { LinePromise text.now page.old result page.new }
{
    let numbers = asked(text).ok()?;
    Some(print_statement(numbers.first, numbers.second, numbers.third, page))
}
