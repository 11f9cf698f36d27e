// A ledger in strata, after the starts: the marks of each stratum's own draw, and the projection by stratum.
#![tactic(auto)]

pub mod marks; // marks.rt: the draw by strata
pub mod projection; // projection.rt: the projection by strata
mod totals; // totals.rt: what the strata's rows add to
