// Two shares compared exactly. Their products may pass 64 bits and are not formed: the comparison goes by divisions, as Euclid's way does.
#![tactic(auto)]

ghost use Rattle.std.specs.Prelude.{◌≡◌, ◌<◌};
ghost use Rattle.ratio.specs.Ratio.{exceeds};

// Whether a / b is above c / d. Equal whole parts leave the remainders to decide, turned round: p / b is above q / d where d / q is above b / p.
#[tactic(auto, unfolding(crate::specs::Ratio::exceeds))]
pub fn share_exceeds(a: u64, b: u64, c: u64, d: u64) -> bool
    requires { (0 < b) × (0 < d) }
    ensures { result ≡ exceeds a b c d }
{
    let left = a / b;
    let right = c / d;
    if left != right {
        return left > right;
    }
    let p = a % b;
    let q = c % d;
    p > 0 && (q == 0 || share_exceeds(d, q, b, p))
}
