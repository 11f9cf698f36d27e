// A fault of a text in words, as one line.
#![tactic(auto)]

ghost use Rattle.std.specs.Prelude.{◌≡◌};
ghost use Rattle.pen.specs.Page.{Wrote, Printed};
ghost use Rattle.faults.specs.Faults.{wrong_words, fault_text};

use entry::{Notation, Wrong};
use notation::Fault;
use pen::Pen;

// The words of a fault; some have others in each notation.
fn wrong_words(wrong: Wrong, by: Notation) -> &'static [u8]
    ensures { result.now ≡ wrong_words by wrong }
{
    match (wrong, by) {
        (Wrong::UnknownKind, Notation::Desk) => b"the line begins with none of P, W, L, E, U and #",
        (Wrong::UnknownKind, Notation::Programmes) => {
            b"the line begins with none of N, S, W, L, E, U and #"
        }
        (Wrong::NumberMissing, _) => b"a number is missing",
        (Wrong::NotNumber, _) => b"a number has decimal digits only",
        (Wrong::NumberTooLarge, _) => b"a number passes 64 bits",
        (Wrong::FieldTooMany, _) => b"a field too many",
        (Wrong::NoPlan, Notation::Desk) => b"P has to come first",
        (Wrong::NoPlan, Notation::Programmes) => b"N has to come first",
        (Wrong::SecondPlan, Notation::Desk) => b"a second P",
        (Wrong::SecondPlan, Notation::Programmes) => b"a second N",
        (Wrong::LevelTooLarge, _) => b"the level is above 255",
        (Wrong::OutOfOrder, Notation::Desk) => b"records come in the order P, W, L, then E and U",
        (Wrong::OutOfOrder, Notation::Programmes) => {
            b"records come in order N, W, S and L, then E and U"
        }
        (Wrong::NoStratum, _) => b"S has to come before L",
        (Wrong::TooManyWords, _) => b"more than 64 words",
        (Wrong::TooManyLines, _) => b"more than 2048 lines",
        (Wrong::TotalTooLarge, _) => b"the sum of L passes 64 bits",
        (Wrong::UnknownLine, _) => b"E or U names a line no L has",
        (Wrong::LineNotRising, _) => b"lines of E and U have to rise",
        (Wrong::ErrorZero, _) => b"an error has to be above 0 in size",
        (Wrong::ErrorTooLarge, _) => b"E passes 2^63 - 1, or U 2^63",
        (Wrong::NoRoom, _) => b"the buffers are too short",
    }
}

// Where it is and what is wrong there.
fn write_line(pen: Pen, out: &mut [u8], fault: Fault, by: Notation) -> Pen
    ensures { Wrote out.old pen.at (fault_text by fault) out.new result.at }
{
    let placed = pen
        .text(out, b"line ")
        .number(out, fault.line as u64)
        .text(out, b": ");
    placed
        .text(out, wrong_words(fault.wrong, by))
        .byte(out, b'\n')
}

// The line of a fault of a text in a notation, at the start of a page, which always has room for it; answers its length.
pub fn print_fault(fault: Fault, by: Notation, page: &mut [u8; 80]) -> usize
    ensures { Printed (fault_text by fault) page.old result page.new }
{
    write_line(Pen { at: 0 }, page, fault, by).at
}
