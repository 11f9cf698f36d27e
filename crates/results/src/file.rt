// The answers of the reader, the writer and the sheet, as C sees them.
ghost use Rattle.std.specs.Prelude.{◌≡◌};
ghost use Rattle.terms.specs.Outcome.{says};
ghost use Rattle.results.specs.Results.{read_seen, write_seen, sheet_seen};

use crate::{ReadResult, SheetResult, WriteResult, head};
use terms::{Refusal, Told};
use workfile::Contents;

const NO_CONTENTS: Contents = Contents {
    level: 0,
    te: 0,
    ae: 0,
    words: 0,
    lines: 0,
};

impl From<Result<Contents, Refusal>> for ReadResult {
    ghost from_gives = { λ answer r. r ≡ read_seen (says answer) };

    fn from(answer: Result<Contents, Refusal>) -> ReadResult {
        let Told { number, place } = head(answer);
        let contents = answer.unwrap_or(NO_CONTENTS);
        ReadResult {
            refusal: number,
            place,
            level: contents.level as u64,
            te: contents.te,
            ae: contents.ae,
            words: contents.words,
            lines: contents.lines,
        }
    }
}

impl From<Result<u64, Refusal>> for WriteResult {
    ghost from_gives = { λ answer r. r ≡ write_seen (says answer) };

    fn from(written: Result<u64, Refusal>) -> WriteResult {
        let Told { number, place } = head(written);
        WriteResult {
            refusal: number,
            place,
            length: written.unwrap_or(0),
        }
    }
}

impl From<Result<u64, Refusal>> for SheetResult {
    ghost from_gives = { λ answer r. r ≡ sheet_seen (says answer) };

    fn from(printed: Result<u64, Refusal>) -> SheetResult {
        let Told { number, place } = head(printed);
        SheetResult {
            refusal: number,
            place,
            length: printed.unwrap_or(0),
        }
    }
}
