// The working file: reader and writer, the salvage of one that was cut, and the sheet of a file.
ghost use Rattle.workfile.specs.Promises.{plan_with, ReadPromise, WritePromise};
ghost use Rattle.salvaging.specs.Salvage.{SalvagePromise};
ghost use Rattle.sheet.specs.Sheet.{SheetPromise};
ghost use Rattle.results.specs.Seen.{Sees};
ghost use Rattle.results.specs.Results.{read_seen, write_seen, sheet_seen};
ghost use Rattle.results.specs.Salvage.{salvage_seen};

use results::{ReadResult, SalvageResult, SheetResult, WriteResult};

// Reads a working file into the buffers.
#[unsafe(no_mangle)]
pub extern "C" fn mus_read(
    file: &[u8],
    words: &mut [u64],
    values: &mut [u64],
    errors: &mut [i64],
) -> ReadResult
    ensures { Sees read_seen (λ a. ReadPromise file.now words.old values.old errors.old a words.new values.new errors.new) result }
{
    reader::read(file, words, values, errors).into()
}

// Writes a working file into the buffer.
#[unsafe(no_mangle)]
pub extern "C" fn mus_write(
    level: u8,
    te: u64,
    ae: u64,
    words: &[u64],
    values: &[u64],
    errors: &[i64],
    file: &mut [u8],
) -> WriteResult
    ensures { Sees write_seen (λ a. WritePromise (plan_with level te ae) words.now values.now errors.now file.old a file.new) result }
{
    writer::write(level, te, ae, words, values, errors, file).into()
}

// Mends a working file that was cut, into the second buffer.
#[unsafe(no_mangle)]
pub extern "C" fn mus_salvage(file: &[u8], out: &mut [u8]) -> SalvageResult
    ensures { Sees salvage_seen (λ a. SalvagePromise file.now out.old a out.new) result }
{
    salvaging::salvage(file, out).into()
}

// Prints the sheet of what stands on the desk program's standard input onto the page.
#[unsafe(no_mangle)]
pub extern "C" fn mus_sheet(input: &[u8], page: &mut [u8]) -> SheetResult
    ensures { Sees sheet_seen (λ a. SheetPromise input.now page.old a page.new) result }
{
    sheet::sheet_in(input, page).into()
}
