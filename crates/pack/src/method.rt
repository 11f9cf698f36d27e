// Whether a text asks for the blackboard method: its first line holds the letter B and nothing else.
ghost use Rattle.std.specs.Prelude.{◌≡◌};
ghost use Rattle.pack.specs.Method.{letter_place};

use entry::Run;
use entry::fields::reach;

// The place of that letter; of a text that does not ask, its length.
#[tactic(auto, using(crate::proofs::Letter::no_byte, crate::proofs::Letter::no_letter, crate::proofs::Letter::letter_ends, crate::proofs::Letter::letter_line, crate::proofs::Letter::letter_more))]
pub fn letter_place(text: &[u8]) -> usize
    ensures { result ≡ letter_place text.now }
{
    let at = reach(text, 0, Run::Blanks);
    if at == text.len() || text[at] != b'B' {
        return text.len();
    }
    let after = reach(text, at + 1, Run::Blanks);
    if after == text.len() || text[after] == b'\n' {
        return at;
    }
    text.len()
}
