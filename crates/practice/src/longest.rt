// The longest ledger: 1,000,000 lines pass, and one more is refused. A program's memory has room for one such list; lines with their
// errors are fewer: with as many draws as lines every line is drawn, and its whole value is its error.
use crate::output::found;
use std::io;

fn both(rt: &HostRuntime, ledger: &[u64]) -> io::Result<()> {
    found(rt, calls::split_figures(ledger, 1_000_000))?;
    let longest = parts::part(ledger, 0, 1_000_000);
    found(rt, calls::split_figures(longest, 1_000_000))
}

pub fn all(rt: &HostRuntime) -> io::Result<()> {
    both(rt, &[7u64; 1_000_001])
}

fn cases(rt: &HostRuntime, ledger: &[u64], errors: &[i64]) -> io::Result<()> {
    found(rt, calls::project(ledger, 15_000, 6, errors))?;
    found(rt, calls::judge(95, ledger, 15_000, 6, errors, 100_000))
}

pub fn with_errors(rt: &HostRuntime) -> io::Result<()> {
    cases(rt, &[7u64; 15_000], &[7i64; 15_000])
}
