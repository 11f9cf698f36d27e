// The attribute job aid of document 000: how many items a control test looks at, and the upper bound on the exceptions in all of them.
#![tactic(auto)]

ghost use Rattle.std.specs.Prelude.{◌≡◌};
ghost use Rattle.terms.specs.Outcome.{says};
ghost use Rattle.attributes.specs.Attributes.{level_place, tolerance_place, entry_place, ItemsPromise, BoundPromise};

use terms::Refusal;

mod table;

// The place of a level, 90, 95 or 99, or refusal 1.
#[tactic(auto, unfolding(crate::specs::Attributes::level_place, crate::specs::Attributes::place_from, crate::specs::Table::levels))]
fn level_place(level: u8) -> Result<usize, Refusal>
    ensures { says result ≡ level_place level }
{
    match level {
        90 => Ok(0),
        95 => Ok(1),
        99 => Ok(2),
        _ => Err(Refusal::UnknownLevel),
    }
}

// The place of a tolerance, 1, 3, 5, 7 or 10, or refusal 25.
#[tactic(auto, unfolding(crate::specs::Attributes::tolerance_place, crate::specs::Attributes::place_from, crate::specs::Table::tolerances))]
fn tolerance_place(tolerance: u8) -> Result<usize, Refusal>
    ensures { says result ≡ tolerance_place tolerance }
{
    match tolerance {
        1 => Ok(0),
        3 => Ok(1),
        5 => Ok(2),
        7 => Ok(3),
        10 => Ok(4),
        _ => Err(Refusal::UnknownTolerance),
    }
}

// The place in table 1 of a level and a tolerance: a row for each tolerance.
#[tactic(auto, unfolding(crate::specs::Attributes::entry_place), using(crate::proofs::Places::column_fits, crate::proofs::Places::row_fits))]
fn entry_place(level: u8, tolerance: u8) -> Result<usize, Refusal>
    ensures { says result ≡ entry_place level tolerance }
{
    let across = level_place(level)?;
    let down = tolerance_place(tolerance)?;
    Ok(down * 3 + across)
}

// The sample size: refusals 1, 25, in this order.
#[tactic(auto, using(crate::proofs::Order::place_fits))]
pub fn size(level: u8, tolerance: u8) -> Result<u64, Refusal>
    ensures { ItemsPromise level tolerance result }
{
    let at = entry_place(level, tolerance)?;
    Ok(table::SIZES[at] as u64)
}

// The upper bound for the exceptions found among the items of that size: refusals 1, 25, 26, in this order.
#[tactic(auto, using(crate::proofs::Order::place_fits))]
pub fn bound(level: u8, tolerance: u8, exceptions: u64) -> Result<u64, Refusal>
    ensures { BoundPromise level tolerance exceptions result }
{
    let at = entry_place(level, tolerance)?;
    if exceptions > 10 {
        return Err(Refusal::TooManyExceptions);
    }
    Ok(table::BOUNDS[at * 11 + exceptions as usize] as u64)
}
