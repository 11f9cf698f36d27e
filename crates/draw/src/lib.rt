// The draw: step 4, from point to point along the row.
#![tactic(auto)]

ghost use Rattle.std.specs.Prelude.{◌≡◌, length};
ghost use Rattle.split.specs.Split.{full_marks};
ghost use Rattle.draw.specs.Row.{cents};
ghost use Rattle.draw.specs.Draw.{Markable, Marked, DrawPromise};
ghost use Rattle.draw.specs.Found.{Before, Found};

use terms::{Cent, Item, Refusal};

// The cents that a line takes up in the row: a full line takes up none.
fn cents_of(value: u64, interval: u64) -> u64
    ensures { result ≡ cents interval value }
{
    if value > interval { 0 } else { value }
}

// An item, and the cent of the row at which it begins.
#[derive(Clone, Copy)]
struct Place {
    item: Item,
    first: Cent,
}

// From a cent of the row to the item that covers it, looked for from a place at or before it on. Where the row ends before the
// cent it is the place after the last line.
#[tactic(auto, using(crate::proofs::Row::searching_from, crate::proofs::Row::searching_here, crate::proofs::Row::searching_more, crate::proofs::Row::searching_end))]
fn item_at(ledger: &[u64], interval: u64, from: Place, cent: Cent) -> Place
    requires { Before interval ledger.now cent.0 from }
    ensures { Found interval ledger.now cent.0 result }
{
    let sought = cent.0;
    let mut ahead = sought - from.first.0;
    for item in from.item.0..ledger.len() {
        let taken = cents_of(ledger[item], interval);
        if ahead < taken {
            return Place {
                item: Item(item),
                first: Cent(sought - ahead),
            };
        }
        ahead -= taken;
    }
    Place {
        item: Item(ledger.len()),
        first: Cent(sought - ahead),
    }
}

// Marks the drawn lines 1, from point to point to the end of the row, and answers how many they are. A `while`: a turn passes a point, not a line.
fn mark_drawn(ledger: &[u64], interval: u64, start: Cent, marks: &mut [u8]) -> u64
    requires { Markable interval ledger.now × (marks.old ≡ full_marks interval ledger.now) }
    ensures { Marked interval start.0 ledger.now result marks.new }
{
    let first = Place {
        item: Item(0),
        first: Cent(0),
    };
    let mut point = start;
    let mut here = item_at(ledger, interval, first, point);
    let mut drawn: u64 = 0;
    while here.item.0 < ledger.len() {
        let item = here.item.0;
        marks[item] = 1;
        drawn += 1;
        let end = here.first.0 + ledger[item];
        let after = Place {
            item: Item(item + 1),
            first: Cent(end),
        };
        let further = point.0 + interval;
        point = Cent(further);
        here = item_at(ledger, interval, after, point);
    }
    drawn
}

// Marks every line, 2 for full, 1 for drawn and 0 for the others, and answers how many are drawn.
pub fn mark_lines(ledger: &[u64], interval: u64, start: Cent, marks: &mut [u8]) -> u64
    requires { Markable interval ledger.now × (length marks.old ≡ length ledger.now) }
    ensures { Marked interval start.0 ledger.now result marks.new }
{
    split::mark_full(ledger, interval, marks);
    mark_drawn(ledger, interval, start, marks)
}

// The draw: how many lines it marks 1, and the marks, which a refusal leaves as they were.
#[tactic(auto, unfolding(crate::specs::Draw::draw_of))]
pub fn draw(ledger: &[u64], n: u64, start: u64, marks: &mut [u8]) -> Result<u64, Refusal>
    ensures { DrawPromise ledger.now n start marks.old result marks.new }
{
    let first = Cent(start);
    let figures = split::figures_for(ledger, n, first, marks.len())?;
    Ok(mark_lines(ledger, figures.interval, first, marks))
}
