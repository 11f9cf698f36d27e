// The cases of standard input, in the form that docs/VECTORS.md tells: one case at a time, its numbers, lists and files, lent rooms with
// the digest of what a call leaves, and the line of an answer.
#![tactic(auto)]

mod bytes; // bytes.rt: the file of a read or a salvage
pub mod cases; // cases.rt: the next case
pub mod fields; // fields.rt: the fields of a case
pub mod input; // input.rt: a case's bytes and numbers
pub mod lines; // lines.rt: the line of a case
mod lists; // lists.rt: lists of a case
pub mod operations; // operations.rt: the operations and their names
pub mod rooms; // rooms.rt: lent rooms and digests
