// Runs the practice sheet of document 01 through the operations, and the worked example of document 002, and writes a line for
// each case: what is expected, which standard input says, and what was found.
#![tactic(auto)]

mod example; // example.rt: document 002's worked example
mod output; // output.rt: a line of the output
mod longest; // longest.rt: 1,000,000 lines
mod cases; // cases.rt: the practice sheet
mod starts; // starts.rt: counts and sums over all starts
mod understated; // understated.rt: errors below 0

use std::io;

fn main(rt: HostRuntime) -> io::Result<()> {
    cases::sizes(&rt)?;
    cases::rounds(&rt)?;
    cases::all_full(&rt)?;
    cases::draws(&rt)?;
    cases::start_of_25(&rt)?;
    cases::projections(&rt)?;
    cases::judgements(&rt)?;
    cases::widest_intervals(&rt)?;
    cases::most_errors(&rt)?;
    understated::drawn_line(&rt)?;
    understated::full_line(&rt)?;
    understated::every_line(&rt)?;
    understated::refusals(&rt)?;
    longest::all(&rt)?;
    longest::with_errors(&rt)?;
    example::draws(&rt)?;
    example::interval(&rt)?;
    example::projections(&rt)?;
    example::precisions(&rt)?;
    example::allowances(&rt)
}
