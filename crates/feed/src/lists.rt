// The lists of a case: the number of entries, the rule that makes them, and changes. A list without entries has no more.
use crate::input::{Place, store};
use parts::{front_to_fill, part_to_fill};

// The number after x in the row of numbers that look random.
fn next_random(x: u64) -> u64 {
    (x % 0x100000000 * 1_664_525 + 1_013_904_223) % 0x100000000
}

// Each entry has a number of the row that the seed opens, and each lies a step above the one before.
#[derive(Clone, Copy)]
struct Rule {
    seed: u64,
    first: u64,
    step: u64,
    most: u64,
    scale: u64,
}

impl Rule {
    fn at(place: Place) -> Rule {
        Rule {
            seed: place.four(),
            first: place.on(4).eight(),
            step: place.on(12).four(),
            most: place.on(16).four(),
            scale: place.on(20).four(),
        }
    }

    // What a number of the row adds to an entry.
    fn added(self, x: u64) -> u64 {
        x / 256 % (self.most % 0x100000000 + 1) * (self.scale % 0x100000000)
    }

    fn fill(self, list: &mut [u64]) {
        let mut x = self.seed;
        let mut low = self.first;
        for entry in list {
            x = next_random(x);
            *entry = low.wrapping_add(self.added(x));
            low = low.wrapping_add(self.step);
        }
    }
}

// A list by the place where it stands.
#[derive(Clone, Copy)]
pub struct Listed<'a>(pub Place<'a>);

impl<'a> Listed<'a> {
    // The number of entries.
    pub fn count(self) -> usize {
        self.0.four() as usize
    }

    // The place after it.
    pub fn end(self) -> Place<'a> {
        if self.0.four() == 0 {
            return self.0.on(4);
        }
        let changes = self.0.on(28).two();
        self.0.on((30 + 12 * changes) as usize)
    }

    // The changes, in their order.
    fn change(self, list: &mut [u64]) {
        let changes = self.0.on(28);
        let mut place = changes.on(2);
        for _ in 0..changes.two() {
            store(list, place.four() as usize, place.on(4).eight());
            place = place.on(12);
        }
    }

    // The entries, laid from a place of the buffer on; the answer is how many there are.
    pub fn lay(self, numbers: &mut [u64], from: usize) -> usize {
        let count = self.count();
        let list = part_to_fill(numbers, from, count);
        if !list.is_empty() {
            Rule::at(self.0.on(4)).fill(list);
            self.change(list);
        }
        count
    }

    // The entries in a buffer of their own.
    pub fn alone<'b>(self, numbers: &'b mut [u64]) -> &'b mut [u64] {
        let count = self.lay(numbers, 0);
        part_to_fill(numbers, 0, count)
    }

    // The entries as numbers with a sign; their patterns are laid first.
    pub fn signed<'b>(self, patterns: &mut [u64], buffer: &'b mut [i64]) -> &'b mut [i64] {
        let count = self.lay(patterns, 0);
        by_patterns(patterns, count, buffer)
    }
}

// So many numbers with a sign by their 64-bit patterns, in a buffer of their own; past the end of the patterns 0.
pub(crate) fn by_patterns<'a>(
    patterns: &[u64],
    count: usize,
    buffer: &'a mut [i64],
) -> &'a mut [i64] {
    let list = front_to_fill(buffer, count);
    for (i, number) in list.iter_mut().enumerate() {
        *number = if i < patterns.len() {
            patterns[i].cast_signed()
        } else {
            0
        };
    }
    list
}
