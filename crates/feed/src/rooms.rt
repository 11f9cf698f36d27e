// What a room of bytes holds before a call, the marks of a batch of findings among them, and the digest of what a call leaves.

// The modulus of the digest.
const MODULUS: u64 = 4_294_967_291;

pub fn fill(room: &mut [u8]) {
    for (i, byte) in room.iter_mut().enumerate() {
        *byte = (17 + i % 199) as u8;
    }
}

// A room whose bytes are the first words; past the end of the words 0.
pub fn fill_from(words: &[u64], room: &mut [u8]) {
    for (i, byte) in room.iter_mut().enumerate() {
        *byte = if i < words.len() {
            (words[i] % 256) as u8
        } else {
            0
        };
    }
}

// What a digest is made of, each as a number; one with a sign by its pattern.
pub trait Digested: Copy {
    fn pattern(self) -> u64;
}

impl Digested for u8 {
    fn pattern(self) -> u64 {
        self as u64
    }
}

impl Digested for u64 {
    fn pattern(self) -> u64 {
        self
    }
}

impl Digested for i64 {
    fn pattern(self) -> u64 {
        self.cast_unsigned()
    }
}

// The digest with more entries.
pub fn digest_on<T: Digested>(start: u64, entries: &[T]) -> u64 {
    let mut digest = start;
    for entry in entries {
        digest = (digest % MODULUS * 31 + entry.pattern() % MODULUS) % MODULUS;
    }
    digest
}

pub fn digest<T: Digested>(entries: &[T]) -> u64 {
    digest_on(1, entries)
}
