// The desk program's whole text, from the bytes of its input: a working file, or the byte 0x42 and a working file.
#![tactic(auto)]

pub mod lines; // lines.rt: the lines of the sheet
mod walked; // walked.rt: the drawn and full lines by the blackboard method

ghost use Rattle.std.specs.Prelude.{◌≡◌, ◌+◌, ◌*◌, ◌≤◌, length};
ghost use Rattle.pen.specs.Page.{Wrote, Printed};
ghost use Rattle.sheet.specs.Sheet.{steps_text, sheet_text, by_board, desk_text, longest_text, SheetPromise};

use pen::Pen;
use terms::Refusal;
use workfile::Plan;

// No text is longer.
pub const LONGEST_TEXT: usize = 184_784;

// The text of an input is decided by so many of its first bytes (`first_bytes` of proofs/FirstBytes.antt).
pub const DECIDING_BYTES: usize = workfile::LONGEST_FILE + 2;

// The text of a file's content, by either method.
fn print_content(
    pen: Pen,
    page: &mut [u8],
    board: bool,
    plan: Plan,
    words: &[u64],
    ledger: &[u64],
    errors: &[i64],
) -> Pen
    ensures wrote { Wrote page.old pen.at (steps_text plan words.now ledger.now errors.now) page.new result.at }
    ensures errors_len_bound { length (steps_text plan words.now ledger.now errors.now) ≤ 464 + 90 * length ledger.now }
{
    match steps::steps(board, plan, words, ledger, errors) {
        Err(why) => lines::refused_line(pen, page, why),
        Ok(answers) => lines::answers_text(pen, page, board, answers, ledger, errors),
    }
}

// The text of a file, by either method. Its content stands in buffers of fixed length: the library takes no memory of its own.
fn print_file(pen: Pen, page: &mut [u8], board: bool, file: &[u8]) -> Pen
    ensures wrote { Wrote page.old pen.at (sheet_text file.now) page.new result.at }
    ensures file_len_bound { length (sheet_text file.now) ≤ longest_text }
{
    let mut words = [0u64; workfile::MOST_WORDS];
    let mut values = [0u64; workfile::MOST_FILE_LINES];
    let mut errors = [0i64; workfile::MOST_FILE_LINES];
    match reader::read(file, &mut words, &mut values, &mut errors) {
        Err(why) => lines::refused_line(pen, page, why),
        Ok(contents) => {
            let plan = Plan {
                level: contents.level,
                te: contents.te,
                ae: contents.ae,
            };
            let words = &words[..contents.words as usize];
            let lines = contents.lines as usize;
            print_content(
                pen,
                page,
                board,
                plan,
                words,
                &values[..lines],
                &errors[..lines],
            )
        }
    }
}

// Whether an input begins with the byte 0x42.
#[tactic(auto, using(crate::proofs::Inputs::no_byte))]
fn by_board(input: &[u8]) -> bool
    ensures { result ≡ by_board input.now }
{
    !input.is_empty() && input[0] == 0x42
}

// The text of an input: the file is all of it, or what follows the byte 0x42.
fn print_input(pen: Pen, page: &mut [u8], input: &[u8]) -> Pen
    ensures wrote { Wrote page.old pen.at (desk_text input.now) page.new result.at }
    ensures input_len_bound { length (desk_text input.now) ≤ longest_text }
{
    if by_board(input) {
        print_file(pen, page, true, &input[1..])
    } else {
        print_file(pen, page, false, input)
    }
}

// The text of an input at the start of a page that holds every text; answers how many bytes it is.
pub fn sheet(input: &[u8], page: &mut [u8; LONGEST_TEXT]) -> usize
    ensures { Printed (desk_text input.now) page.old result page.new }
{
    print_input(Pen { at: 0 }, page, input).at
}

// The same on a page of any length: 18 where it is shorter than the longest text, and then it stays as it is.
pub fn sheet_in(input: &[u8], page: &mut [u8]) -> Result<u64, Refusal>
    ensures { SheetPromise input.now page.old result page.new }
{
    if page.len() < LONGEST_TEXT {
        return Err(Refusal::RoomTooShort(LONGEST_TEXT as u64));
    }
    Ok(print_input(Pen { at: 0 }, page, input).at as u64)
}
