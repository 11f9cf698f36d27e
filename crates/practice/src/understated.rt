// Lines of which too little was claimed: their errors are below 0. They are projected by themselves, and the verdict looks away.
use crate::output::found;
use std::io;

const LEDGER: [u64; 4] = [30, 30, 40, 20];

// -2^63, whose size is 2^63.
const LEAST: i64 = -9_223_372_036_854_775_808;

fn projected(rt: &HostRuntime, errors: &[i64]) -> io::Result<()> {
    let ledger = LEDGER;
    found(rt, calls::project(&ledger, 3, 25, errors))
}

// The verdict at a tolerable error that lies between the net and what is overstated.
pub fn drawn_line(rt: &HostRuntime) -> io::Result<()> {
    let ledger = LEDGER;
    let errors = [-7, 0, 10, 5];
    found(rt, calls::project(&ledger, 3, 25, &errors))?;
    found(rt, calls::judge(50, &ledger, 3, 25, &errors, 19))?;
    found(rt, calls::judge(50, &ledger, 3, 25, &errors, 20))
}

pub fn full_line(rt: &HostRuntime) -> io::Result<()> {
    found(
        rt,
        calls::project(&[500, 120, 0, 80, 300], 4, 0, &[-50, 0, 0, 8, 3]),
    )
}

pub fn every_line(rt: &HostRuntime) -> io::Result<()> {
    projected(rt, &[-7, 0, -10, -5])
}

pub fn refusals(rt: &HostRuntime) -> io::Result<()> {
    projected(rt, &[-30, 0, 0, 0])?;
    projected(rt, &[-31, 0, 0, 0])?;
    projected(rt, &[LEAST, 0, 0, 0])?;
    projected(rt, &[0, -1, 0, 0])
}
