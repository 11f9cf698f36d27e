// The worked example of document 002, section 7.3.4.7, as far as it can be computed from what it prints. A name ends with the
// printed figure, in euro; what is expected and found is in cents. docs/WORKED-EXAMPLE.md says why they differ.
ghost use Rattle.std.specs.Prelude.{◌≡◌, ◌<◌, ◌≤◌, length};

use crate::output;
use crate::output::found;
use factors::Level;
use std::io;

// The tolerable error, 2 percent of the total.
const TE: u64 = 8_399_764_048;

// The total over 136 draws.
const INTERVAL: u64 = 3_088_148_547;

pub fn draws(rt: &HostRuntime) -> io::Result<()> {
    found(rt, calls::size(90, 419_988_202_400, TE, 839_976_404))
}

// The document's total in 137 lines, none above the interval. The first is drawn at start 0, and has 1000 cents, so that its
// error in cents is an error rate in thousandths.
fn ledger() -> [u64; 137]
    ensures { 137 ≡ length result }
{
    let mut lines = [INTERVAL; 137];
    lines[0] = 1_000;
    lines[136] = INTERVAL - 992;
    lines
}

pub fn interval(rt: &HostRuntime) -> io::Result<()> {
    found(rt, calls::split_figures(&ledger(), 136))
}

// The error of the first line, by its rate; the others have none.
fn errors_of(rate: i64) -> [i64; 137]
    ensures { 137 ≡ length result }
{
    let mut errors = [0i64; 137];
    errors[0] = rate;
    errors
}

// The projected error of one rate after another.
pub fn projections(rt: &HostRuntime) -> io::Result<()> {
    for rate in [212, 1, 24, 12, 20, 8] {
        found(rt, calls::project(&ledger(), 136, 0, &errors_of(rate)))?;
    }
    Ok(())
}

// The precision without errors is the basic one; the first order's allowance joins it.
pub fn precisions(rt: &HostRuntime) -> io::Result<()> {
    for rate in [0, 212] {
        found(
            rt,
            calls::judge(90, &ledger(), 136, 0, &errors_of(rate), TE),
        )?;
    }
    Ok(())
}

// The step of an order at level 90, where none is below zero.
fn step_of(order: usize) -> u64
    ensures { result < 1000 }
{
    if order == 0 {
        return 0;
    }
    let factor = Level::P90.reliability(order);
    let former = Level::P90.reliability(order - 1);
    factor.saturating_sub(former).saturating_sub(100) % 1_000
}

// The step of an order times a projected error.
fn allowance(rt: &HostRuntime, order: usize, projected: u64) -> io::Result<()>
    requires { projected ≤ 4000000000 }
{
    output::number(rt, step_of(order) * projected / 100)
}

pub fn allowances(rt: &HostRuntime) -> io::Result<()> {
    allowance(rt, 1, 654_687_500)?;
    allowance(rt, 12, 2_948_800)?;
    allowance(rt, 13, 74_115_600)?;
    allowance(rt, 14, 37_057_800)?;
    allowance(rt, 15, 61_763_000)?;
    allowance(rt, 16, 24_705_200)
}
