// The factors of document 01: nine levels, an expansion factor for each, and sixty-four reliability factors for each.
#![tactic(auto)]

ghost use Rattle.std.specs.Prelude.{◌≡◌, length, pos, ◌-ℤ◌};
ghost use Rattle.factors.specs.Levels.{LevelPromise, row_of, ef};
ghost use Rattle.factors.specs.Factors.{factors_of, Reliability};

use terms::Refusal;

mod table;

// The nine levels, in the order of the table's rows.
#[derive(Clone, Copy)]
pub enum Level {
    P99,
    P95,
    P90,
    P85,
    P80,
    P75,
    P70,
    P60,
    P50,
}

impl Level {
    // The level that a byte names by its percent, or refusal 1: of a byte it can be said that it names none, of a Level it cannot.
    #[tactic(auto, unfolding(crate::specs::Levels::level_of))]
    pub fn from_percent(percent: u8) -> Result<Level, Refusal>
        ensures { LevelPromise percent result }
    {
        match percent {
            99 => Ok(Level::P99),
            95 => Ok(Level::P95),
            90 => Ok(Level::P90),
            85 => Ok(Level::P85),
            80 => Ok(Level::P80),
            75 => Ok(Level::P75),
            70 => Ok(Level::P70),
            60 => Ok(Level::P60),
            50 => Ok(Level::P50),
            _ => Err(Refusal::UnknownLevel),
        }
    }

    // The row of the level in the table.
    pub fn row(self) -> usize
        ensures { result ≡ row_of self }
    {
        self as usize
    }

    // The expansion factor EF, in hundredths: a column of the table, for which a derive has no numbers.
    pub fn expansion(self) -> u64
        ensures { result ≡ ef self }
    {
        match self {
            Level::P99 => 190,
            Level::P95 => 160,
            Level::P90 => 150,
            Level::P85 => 140,
            Level::P80 => 130,
            Level::P75 => 125,
            Level::P70 => 120,
            Level::P60 => 110,
            Level::P50 => 100,
        }
    }

    // The factors of the level, RF(0) to RF(63). Each row is lent by fixed bounds: so the compiler stores the row alone, and not the table.
    #[tactic(auto, unfolding(crate::specs::Factors::factors_of, crate::specs::Table::table))]
    pub fn factors(self) -> [u16; 64]
        ensures { result ≡ factors_of self }
    {
        let factors = table::FACTORS;
        match self {
            Level::P99 => copied(&factors[0..64]),
            Level::P95 => copied(&factors[64..128]),
            Level::P90 => copied(&factors[128..192]),
            Level::P85 => copied(&factors[192..256]),
            Level::P80 => copied(&factors[256..320]),
            Level::P75 => copied(&factors[320..384]),
            Level::P70 => copied(&factors[384..448]),
            Level::P60 => copied(&factors[448..512]),
            Level::P50 => copied(&factors[512..576]),
        }
    }

    // The reliability factor RF(k) in hundredths, and 0 past the table.
    pub fn reliability(self, k: usize) -> u64
        ensures { Reliability self k result }
    {
        if k >= 64 {
            return 0;
        }
        self.factors()[k] as u64
    }
}

// A factor in 64 bits.
pub fn wide(factor: u16) -> u64
    ensures { result ≡ factor }
{
    factor as u64
}

// A row of the table, copied.
fn copied(factors: &[u16]) -> [u16; 64]
    requires { length factors.now ≡ 64 }
    ensures { result ≡ factors.now }
{
    let mut row = [0u16; 64];
    row.copy_from_slice(factors);
    row
}

// The step from a factor to the next, less a hundred: it may be below zero.
pub fn step(former: u16, factor: u16) -> i64
    ensures { result ≡ (pos factor -ℤ pos former) -ℤ pos 100 }
{
    i64::from(factor) - i64::from(former) - 100
}
