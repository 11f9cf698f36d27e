// Text as bytes, written on a lent page. At the end of the page the pen stops, so every call is allowed.
#![tactic(auto)]

ghost use Rattle.std.specs.Prelude.{◌∷◌, [], map};
ghost use Rattle.pen.specs.Text.{decimal, sized_text, signed_text, fields as fieldsText, line as lineText};
ghost use Rattle.pen.specs.Page.{Wrote};

// The place of the next byte.
#[derive(Clone, Copy)]
pub struct Pen {
    pub at: usize,
}

impl Pen {
    // One byte; at the end of the page, nothing.
    #[tactic(auto, using(crate::proofs::Writing::byte_put, crate::proofs::Writing::byte_past))]
    pub fn byte(self, out: &mut [u8], b: u8) -> Pen
        ensures { Wrote out.old self.at (b ∷ []) out.new result.at }
    {
        if self.at >= out.len() {
            return self;
        }
        out[self.at] = b;
        Pen { at: self.at + 1 }
    }

    // A text.
    #[tactic(auto, using(crate::proofs::Writing::left_all, crate::proofs::Writing::byte_laid, crate::proofs::Writing::bytes_laid))]
    pub fn text(self, out: &mut [u8], bytes: &[u8]) -> Pen
        ensures { Wrote out.old self.at bytes.now out.new result.at }
    {
        let mut pen = self;
        for b in bytes {
            pen = pen.byte(out, *b);
        }
        pen
    }

    // A number in decimal.
    pub fn number(self, out: &mut [u8], n: u64) -> Pen
        ensures { Wrote out.old self.at (decimal n) out.new result.at }
    {
        if n < 10 {
            return self.byte(out, b'0' + n as u8);
        }
        let pen = self.number(out, n / 10);
        pen.byte(out, b'0' + (n % 10) as u8)
    }

    // A size with the sign of its kind: a minus before it where it is understated.
    pub fn sized(self, out: &mut [u8], size: u64, under: bool) -> Pen
        ensures { Wrote out.old self.at (sized_text size under) out.new result.at }
    {
        if under {
            return self.byte(out, b'-').number(out, size);
        }
        self.number(out, size)
    }

    // A signed number in decimal.
    pub fn signed(self, out: &mut [u8], e: i64) -> Pen
        ensures { Wrote out.old self.at (signed_text e) out.new result.at }
    {
        self.sized(out, signed::size_of(e), e < 0)
    }

    // A space and a size with its sign.
    pub fn sized_field(self, out: &mut [u8], size: u64, under: bool) -> Pen
        ensures { Wrote out.old self.at (32 ∷ sized_text size under) out.new result.at }
    {
        self.byte(out, b' ').sized(out, size, under)
    }

    // A space and a number.
    pub fn field(self, out: &mut [u8], n: u64) -> Pen
        ensures { Wrote out.old self.at (32 ∷ decimal n) out.new result.at }
    {
        self.byte(out, b' ').number(out, n)
    }

    // Numbers, each after a space.
    #[tactic(auto, using(crate::proofs::Writing::left_all, crate::proofs::Writing::field_laid, crate::proofs::Writing::fields_laid))]
    pub fn fields(self, out: &mut [u8], numbers: &[u64]) -> Pen
        ensures { Wrote out.old self.at (fieldsText numbers.now) out.new result.at }
    {
        let mut pen = self;
        for n in numbers {
            pen = pen.field(out, *n);
        }
        pen
    }

    // A line of a word and numbers.
    pub fn line(self, out: &mut [u8], word: &[u8], numbers: &[u64]) -> Pen
        ensures { Wrote out.old self.at (lineText (word.now ∷ map decimal numbers.now)) out.new result.at }
    {
        self.text(out, word).fields(out, numbers).byte(out, b'\n')
    }
}
