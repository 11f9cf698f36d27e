// The draw and the projection by walking, from the fields of a case.
use crate::{of_draw, of_project};
use answers::Answer;

pub fn board_draw(ledger: &[u64], n: u64, start: u64, marks: &mut [u8]) -> Answer {
    of_draw(blackboard::board_draw(ledger, n, start, marks).into())
}

pub fn board_project(ledger: &[u64], n: u64, start: u64, errors: &[i64]) -> Answer {
    of_project(blackboard::board_project(ledger, n, start, errors).into())
}
