// The bytes of a case. Every place may be asked for: past the end of the case there are zeros.
ghost use Rattle.std.specs.Prelude.{◌<◌};

// The bytes from a place on.
#[derive(Clone, Copy)]
pub struct Place<'a>(pub &'a [u8]);

impl<'a> Place<'a> {
    // The place so many bytes on, or the end of the case.
    pub fn on(self, bytes: usize) -> Place<'a> {
        if bytes < self.0.len() {
            Place(&self.0[bytes..])
        } else {
            Place(&[])
        }
    }

    pub fn byte(self) -> u8 {
        if self.0.is_empty() { 0 } else { self.0[0] }
    }

    // The number of 2 bytes.
    pub fn two(self) -> u64
        ensures { result < 65536 }
    {
        self.byte() as u64 + 0x100 * self.on(1).byte() as u64
    }

    // The number of 4 bytes.
    pub fn four(self) -> u64
        ensures { result < 4294967296 }
    {
        self.two() + 0x10000 * self.on(2).two()
    }

    // The number of 8 bytes.
    pub fn eight(self) -> u64 {
        self.four() + 0x100000000 * self.on(4).four()
    }
}

// An entry is stored where the list has its place.
pub(crate) fn store<T: Copy>(list: &mut [T], at: usize, entry: T) {
    if at < list.len() {
        list[at] = entry;
    }
}
