// The lines of the season's sheet, each written from the pen's place on.
ghost use Rattle.std.specs.Prelude.{◌≡◌};
ghost use Rattle.factors.specs.Levels.{percent_of};
ghost use Rattle.overview.specs.Overview.{Bounded, level_line, three_lines, levels_text, sums_line, worst_line, tally_text};

use factors::Level;
use judge::Verdict;
use pen::Pen;
use season::Tally;

// The percent of a level.
fn percent(level: Level) -> u64
    ensures { result ≡ percent_of level }
{
    match level {
        Level::P99 => 99,
        Level::P95 => 95,
        Level::P90 => 90,
        Level::P85 => 85,
        Level::P80 => 80,
        Level::P75 => 75,
        Level::P70 => 70,
        Level::P60 => 60,
        Level::P50 => 50,
    }
}

// A level: how many are below, inconclusive and above.
fn level_line(pen: Pen, page: &mut [u8], tally: Tally, level: Level) -> Pen
    ensures { Bounded page.old pen.at (level_line tally.counts level) page.new result.at 90 }
{
    let below = tally.count(level, Verdict::Below);
    let inconclusive = tally.count(level, Verdict::Inconclusive);
    let above = tally.count(level, Verdict::Above);
    let numbers = [percent(level), below, inconclusive, above];
    pen.line(page, b"level", &numbers)
}

fn three_lines(pen: Pen, page: &mut [u8], tally: Tally, one: Level, two: Level, three: Level) -> Pen
    ensures { Bounded page.old pen.at (three_lines tally.counts one two three) page.new result.at 270 }
{
    let first = level_line(pen, page, tally, one);
    let second = level_line(first, page, tally, two);
    level_line(second, page, tally, three)
}

// A line a level, 99 first.
fn levels_text(pen: Pen, page: &mut [u8], tally: Tally) -> Pen
    ensures { Bounded page.old pen.at (levels_text tally.counts) page.new result.at 810 }
{
    let high = three_lines(pen, page, tally, Level::P99, Level::P95, Level::P90);
    let middle = three_lines(high, page, tally, Level::P85, Level::P80, Level::P75);
    three_lines(middle, page, tally, Level::P70, Level::P60, Level::P50)
}

// The books, the limits, the refused ones and all that were added.
fn sums_line(pen: Pen, page: &mut [u8], tally: Tally) -> Pen
    ensures { Bounded page.old pen.at (sums_line tally) page.new result.at 89 }
{
    let numbers = [tally.books, tally.limits, tally.refused, tally.added];
    pen.line(page, b"sums", &numbers)
}

// The place of the largest share, its limit and its book.
fn worst_line(pen: Pen, page: &mut [u8], tally: Tally) -> Pen
    ensures { Bounded page.old pen.at (worst_line tally) page.new result.at 69 }
{
    let numbers = [tally.worst, tally.worst_limit, tally.worst_book];
    pen.line(page, b"worst", &numbers)
}

// The whole sheet of a tally.
pub fn tally_text(pen: Pen, page: &mut [u8], tally: Tally) -> Pen
    ensures { Bounded page.old pen.at (tally_text tally) page.new result.at 968 }
{
    let counted = levels_text(pen, page, tally);
    let summed = sums_line(counted, page, tally);
    worst_line(summed, page, tally)
}
