// What a salvage did, as one line of text: each figure after its word, those of an old Z last; or the line of its refusal.
#![tactic(auto)]

ghost use Rattle.pen.specs.Page.{Wrote, Printed};
ghost use Rattle.terms.specs.Outcome.{says};
ghost use Rattle.report.specs.Report.{Bounded, named, old_text, salvaged_text, report_text, longest_report};

use pen::Pen;
use salvaging::{OldEnd, Salvaged};
use terms::Refusal;

// No line is longer.
pub const LONGEST_REPORT: usize = 153;

// A word, and its figure after a space.
fn put_named(pen: Pen, page: &mut [u8], word: &[u8], figure: u64) -> Pen
    ensures { Wrote page.old pen.at (named word.now figure) page.new result.at }
{
    pen.text(page, word).field(page, figure)
}

// The figures of an old Z, where there is one, and the end of the line.
fn put_old(pen: Pen, page: &mut [u8], old: Option<OldEnd>) -> Pen
    ensures { Bounded page.old pen.at (old_text old) page.new result.at 47 }
{
    match old {
        Some(OldEnd { count, sum }) => pen.line(page, b" old", &[count, sum]),
        None => pen.byte(page, 10),
    }
}

// The records kept and the bytes dropped, the new count and the new sum, and the old Z.
fn put_salvaged(pen: Pen, page: &mut [u8], salvaged: Salvaged) -> Pen
    ensures { Bounded page.old pen.at (salvaged_text salvaged) page.new result.at longest_report }
{
    let kept = put_named(pen, page, b"kept", salvaged.kept);
    let dropped = put_named(kept, page, b" dropped", salvaged.dropped);
    let lines = put_named(dropped, page, b" lines", salvaged.lines);
    let sum = put_named(lines, page, b" sum", salvaged.sum);
    put_old(sum, page, salvaged.old)
}

fn put_report(pen: Pen, page: &mut [u8], answer: Result<Salvaged, Refusal>) -> Pen
    ensures { Bounded page.old pen.at (report_text (says answer)) page.new result.at longest_report }
{
    match answer {
        Err(why) => sheet::lines::refused_line(pen, page, why),
        Ok(salvaged) => put_salvaged(pen, page, salvaged),
    }
}

// The line at the start of a page that holds every one; answers how many bytes it is.
pub fn print_report(answer: Result<Salvaged, Refusal>, page: &mut [u8; LONGEST_REPORT]) -> usize
    ensures { Printed (report_text (says answer)) page.old result page.new }
{
    put_report(Pen { at: 0 }, page, answer).at
}
