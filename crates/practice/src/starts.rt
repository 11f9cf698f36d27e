// What is counted and added over all starts of a ledger.

// Whether a start draws one line of five, and that is line 3.
fn draws_line_3(ledger: &[u64; 5], n: u64, start: u64) -> bool {
    let mut marks = [9u8; 5];
    let answer = calls::draw(ledger, n, start, &mut marks);
    marks[3] == 1 && answer.figures[0] == 1
}

// The number of starts below an interval at which line 3 alone is drawn.
pub fn starts_that_draw_line_3(ledger: &[u64; 5], n: u64, interval: u64) -> u64 {
    let mut count: u64 = 0;
    for start in 0..interval {
        if draws_line_3(ledger, n, start) {
            count = add(count, 1);
        }
    }
    count
}

// A sum, or the first part where it would pass 64 bits.
fn add(a: u64, b: u64) -> u64 {
    a.checked_add(b).unwrap_or(a)
}

// The projection at a start, with the true errors entered for the lines drawn and 0 elsewhere.
fn projected(ledger: &[u64; 4], n: u64, start: u64, errors: &[i64; 4]) -> u64 {
    let mut marks = [0u8; 4];
    calls::draw(ledger, n, start, &mut marks);
    let mut found = *errors;
    for (line, mark) in marks.iter().enumerate() {
        if *mark == 0 {
            found[line] = 0;
        }
    }
    let answer = calls::project(ledger, n, start, &found);
    add(answer.figures[0], answer.figures[1])
}

// The projections of all starts below an interval, added.
pub fn projected_over_starts(ledger: &[u64; 4], n: u64, interval: u64, errors: &[i64; 4]) -> u64 {
    let mut sum: u64 = 0;
    for start in 0..interval {
        sum = add(sum, projected(ledger, n, start, errors));
    }
    sum
}
