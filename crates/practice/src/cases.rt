// The practice sheet of document 01: every case, starred or not, in the order of standard input.
use crate::output::found;
use crate::{output, starts};
use std::io;

pub fn sizes(rt: &HostRuntime) -> io::Result<()> {
    found(rt, calls::size(95, 1_000_000, 20_000, 0))?;
    found(rt, calls::size(90, 1_000_000, 20_000, 0))?;
    found(rt, calls::size(95, 1_000_000, 20_000, 4_000))?;
    found(rt, calls::size(95, 1_000_000, 20_000, 12_499))?;
    found(rt, calls::size(95, 1_000_000, 20_000, 12_500))
}

// The split's figures, and the marks that it leaves where there were others.
fn split(rt: &HostRuntime, ledger: &[u64], n: u64, marks: &mut [u8]) -> io::Result<()> {
    found(rt, calls::split(ledger, n, marks))?;
    output::marks(rt, marks)
}

// Three rounds: 250, 100, 80. Lines 0, 1 and 4 are full, and line 3 is drawn at every start.
pub fn rounds(rt: &HostRuntime) -> io::Result<()> {
    let ledger = [500, 120, 0, 80, 300];
    split(rt, &ledger, 4, &mut [9; 5])?;
    output::number(rt, starts::starts_that_draw_line_3(&ledger, 4, 80))
}

pub fn all_full(rt: &HostRuntime) -> io::Result<()> {
    split(rt, &[10], 2, &mut [9; 1])?;
    found(rt, calls::judge(95, &[10], 2, 0, &[0], 1))
}

// The number of lines drawn, and the marks that the draw leaves.
fn draw(rt: &HostRuntime, start: u64, marks: &mut [u8]) -> io::Result<()> {
    found(rt, calls::draw(&[30, 30, 40, 20], 3, start, marks))?;
    output::marks(rt, marks)
}

// A start that does not fit leaves the marks.
pub fn draws(rt: &HostRuntime) -> io::Result<()> {
    let mut marks = [9; 4];
    draw(rt, 40, &mut marks)?;
    split(rt, &[30, 30, 40, 20], 3, &mut [9; 4])?;
    draw(rt, 0, &mut marks)?;
    draw(rt, 25, &mut marks)?;
    draw(rt, 30, &mut marks)
}

pub fn start_of_25(rt: &HostRuntime) -> io::Result<()> {
    found(rt, calls::start(40, &[63, 25]))
}

pub fn projections(rt: &HostRuntime) -> io::Result<()> {
    let ledger = [30, 30, 40, 20];
    let errors = [7, 0, 10, 5];
    output::number(rt, starts::projected_over_starts(&ledger, 3, 40, &errors))?;
    found(rt, calls::project(&ledger, 3, 0, &errors))
}

pub fn judgements(rt: &HostRuntime) -> io::Result<()> {
    let ledger = [30, 30, 40, 20];
    let errors = [7, 0, 10, 5];
    found(rt, calls::judge(90, &ledger, 3, 25, &errors, 100))?;
    found(rt, calls::judge(50, &ledger, 3, 25, &errors, 100))?;
    found(rt, calls::judge(50, &ledger, 3, 25, &errors, 58))?;
    found(rt, calls::judge(50, &ledger, 3, 25, &errors, 59))
}

pub fn widest_intervals(rt: &HostRuntime) -> io::Result<()> {
    split(rt, &[4_000_000_001], 1, &mut [9; 1])?;
    found(rt, calls::start(1_000_000_000_000_000, &[0]))?;
    found(rt, calls::start(1_000_000_000_000_001, &[0]))
}

pub fn most_errors(rt: &HostRuntime) -> io::Result<()> {
    let ledger = [10u64; 64];
    let errors = [1i64; 64];
    found(
        rt,
        calls::judge(90, &ledger[..63], 63, 0, &errors[..63], 100),
    )?;
    found(rt, calls::judge(90, &ledger, 64, 0, &errors, 100))?;
    found(rt, calls::project(&ledger, 64, 0, &errors))
}
