// The bits of a mark that a call goes by: all eight, or the two of a team.
#![tactic(auto)]

ghost use Rattle.std.specs.Prelude.{◌≡◌, ◌<◌};
ghost use Rattle.bits.specs.Own.{own_of, with_own};

// Which bits of each mark are a call's own: all eight, bits 0 and 1, or bits 2 and 3.
#[derive(Clone, Copy)]
pub enum Bits {
    All,
    Low,
    High,
}

impl Bits {
    // The own bits of a mark, as a number.
    pub fn own(self, mark: u8) -> u8
        ensures { result ≡ own_of self mark }
    {
        match self {
            Bits::All => mark,
            Bits::Low => mark % 4,
            Bits::High => mark / 4 % 4,
        }
    }

    // A mark with new own bits, the others as they were.
    pub fn with_own(self, mark: u8, new: u8) -> u8
        requires { new < 4 }
        ensures { result ≡ with_own self mark new }
    {
        match self {
            Bits::All => new,
            Bits::Low => mark / 4 * 4 + new,
            Bits::High => mark / 16 * 16 + new * 4 + mark % 4,
        }
    }
}
