// The drawn and full lines of the sheet by the blackboard method: each by its mark, while the walk goes on beside them. And by either method.
ghost use Rattle.std.specs.Prelude.{◌≤◌};
ghost use Rattle.signed.specs.declared.Part.TheVariants.{Size};
ghost use Rattle.signed.specs.Errors.{size_of, is_under};
ghost use Rattle.signed.specs.Parts.{part_of};
ghost use Rattle.pen.specs.Page.{Wrote};
ghost use Rattle.steps.specs.Steps.{Shown};
ghost use Rattle.boardjudge.specs.Marked.{marked_line, MarkFits, Walkable};
ghost use Rattle.sheet.specs.Lines.{item_text, ledger_text};

use crate::lines::{item_line, ledger_lines};
use blackboard::Board;
use blackboard::sums::mark_where;
use pen::Pen;
use terms::{Cent, Item};

// One line of the ledger by its mark: its state goes by the size of its error, and its text by the sign too.
fn walked_line(
    pen: Pen,
    page: &mut [u8],
    item: u64,
    value: u64,
    error: i64,
    interval: u64,
    mark: u8,
) -> Pen
    requires { MarkFits interval value (size_of error) mark }
    ensures { Wrote page.old pen.at (item_text item (is_under error) (marked_line interval value (part_of Size error) mark)) page.new result.at }
{
    let line = boardjudge::marked_line(value, signed::size_of(error), interval, mark);
    item_line(pen, page, item, error < 0, line)
}

// The drawn and full lines, in ledger order.
fn walked_lines(pen: Pen, page: &mut [u8], board: Board, errors: &[i64], start: Cent) -> Pen
    requires { Walkable board.interval start.0 board.ledger.now errors.now }
    ensures { Wrote page.old pen.at (ledger_text 0 board.entry.interval start.0 board.entry.ledger.now errors.now) page.new result.at }
{
    let mut walker = board.walker_at(start.0);
    let mut at = pen;
    for (item, value) in board.ledger.iter().enumerate() {
        let mark = mark_where(*value, board.interval, item, walker.stop);
        at = walked_line(
            at,
            page,
            item as u64,
            *value,
            errors[item],
            board.interval,
            mark,
        );
        walker = board.walk_on(walker, item);
    }
    at
}

// The drawn and full lines by the first method or by the blackboard's: the text is the same.
pub fn lines_by(
    pen: Pen,
    page: &mut [u8],
    board: bool,
    ledger: &[u64],
    errors: &[i64],
    interval: u64,
    start: Cent,
) -> Pen
    requires { Shown 0 interval ledger.now errors.now × (start.0 ≤ interval) }
    ensures { Wrote page.old pen.at (ledger_text 0 interval start.0 ledger.now errors.now) page.new result.at }
{
    if board {
        walked_lines(pen, page, Board { ledger, interval }, errors, start)
    } else {
        ledger_lines(pen, page, Item(0), ledger, errors, interval, start)
    }
}
