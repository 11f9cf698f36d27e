// Parts of lent buffers. What would reach past the end of a buffer is the whole buffer.
#![tactic(auto)]

ghost use Rattle.std.specs.Prelude.{◌≡◌, take};

// So many entries from the start.
pub fn front<T>(entries: &[T], count: usize) -> &[T]
    ensures { result.now ≡ take count entries.now }
{
    &entries[..count.min(entries.len())]
}

// The same to be written: no one form lends both for reading and for writing.
pub fn front_to_fill<T>(entries: &mut [T], count: usize) -> &mut [T]
    ensures { result.now ≡ take count entries.old }
{
    let end = count.min(entries.len());
    &mut entries[..end]
}

// So many numbers from a place on.
pub fn part(numbers: &[u64], from: usize, count: usize) -> &[u64] {
    if from <= numbers.len() && count <= numbers.len() - from {
        &numbers[from..from + count]
    } else {
        numbers
    }
}

// The same to be written: no one form lends both for reading and for writing.
pub fn part_to_fill(numbers: &mut [u64], from: usize, count: usize) -> &mut [u64] {
    if from <= numbers.len() && count <= numbers.len() - from {
        &mut numbers[from..from + count]
    } else {
        numbers
    }
}
