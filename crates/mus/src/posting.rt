// Findings posted beside the ledger, singly or by the batch.
ghost use Rattle.findings.specs.Findings.{PostPromise};
ghost use Rattle.findings.specs.Batch.{PostAllPromise};
ghost use Rattle.results.specs.Seen.{Sees};
ghost use Rattle.results.specs.Findings.{post_seen};

use results::PostResult;

// One finding: the error of a line.
#[unsafe(no_mangle)]
pub extern "C" fn mus_post(
    ledger: &[u64],
    marks: &[u8],
    errors: &mut [i64],
    line: u64,
    error: i64,
) -> PostResult
    ensures { Sees post_seen (λ a. PostPromise ledger.now marks.now errors.old line error a errors.new) result }
{
    findings::post(ledger, marks, errors, line, error).into()
}

// A batch of findings, as a list of lines and one of errors: the pairs before a refused one stay posted.
#[unsafe(no_mangle)]
pub extern "C" fn mus_post_all(
    ledger: &[u64],
    marks: &[u8],
    errors: &mut [i64],
    lines: &[u64],
    found: &[i64],
) -> PostResult
    ensures { Sees post_seen (λ a. PostAllPromise ledger.now marks.now errors.old lines.now found.now a errors.new) result }
{
    findings::post_all(ledger, marks, errors, lines, found).into()
}
