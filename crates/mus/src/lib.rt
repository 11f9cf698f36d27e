// The operations for C and the like. Each answers a struct by value (crate `results`). A slice is a pointer and a length. include/mus.h
// declares them.
#![tactic(auto)]

mod board; // board.rt: the blackboard method
mod by_strata; // by_strata.rt: the operations by strata
mod by_team; // by_team.rt: two teams on one ledger
mod control; // control.rt: the attribute job aid for control tests
mod file; // file.rt: the working file and its sheet
mod method; // method.rt: the steps of the method
mod posting; // posting.rt: findings posted, singly or by the batch
mod summary; // summary.rt: totals beside the ledger
mod tally; // tally.rt: the tally of a season
