// The number of draws: document 01, step 1.
#![tactic(auto)]

ghost use Rattle.size.specs.Size.{SizePromise};

use factors::Level;
use terms::Refusal;

// The number of draws for a level in percent, a total, the tolerable error TE and the anticipated error AE: refusals 1, 4, 5, 6, 7, in this order.
// The level is a byte, since 1 is for one that names none.
#[tactic(auto, unfolding(crate::specs::Size::size_of, crate::specs::Size::size_at, terms::specs::Numbers::div_up))]
pub fn size(level: u8, total: u64, te: u64, ae: u64) -> Result<u64, Refusal>
    ensures { SizePromise level total te ae result }
{
    let level = Level::from_percent(level)?;
    if total > terms::MOST_TOTAL {
        return Err(Refusal::TotalTooLarge(0));
    }
    if total == 0 {
        return Err(Refusal::TotalZero);
    }
    if te == 0 || te > total || ae > total {
        return Err(Refusal::ToleranceOutOfRange);
    }
    let tolerable = 100 * te;
    let anticipated = ae * level.expansion();
    if tolerable <= anticipated {
        return Err(Refusal::ToleranceSpent);
    }
    let spare = tolerable - anticipated;
    let wanted = total * level.reliability(0);
    Ok((wanted + (spare - 1)) / spare)
}
