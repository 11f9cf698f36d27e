// The season's sheet: the text of the tally of working files that stand in a row.
#![tactic(auto)]

pub mod lines; // lines.rt: the lines of the sheet

ghost use Rattle.pen.specs.Page.{Printed};
ghost use Rattle.season.specs.Add.{add_says};
ghost use Rattle.overview.specs.Overview.{Bounded, season_text, overview_text, longest_overview};

use pen::Pen;
use season::HandedBack;

// No sheet is longer: nine lines of 90 bytes, one of 89 and one of 69.
pub const LONGEST_OVERVIEW: usize = 968;

// The sheet of a tally, or the line of the refusal beside it.
fn print_season(pen: Pen, page: &mut [u8], handed: HandedBack) -> Pen
    ensures { Bounded page.old pen.at (season_text (add_says handed)) page.new result.at longest_overview }
{
    match handed.answer {
        Err(why) => sheet::lines::refused_line(pen, page, why),
        Ok(()) => lines::tally_text(pen, page, handed.tally),
    }
}

// The sheet of files in a row at the start of a page that holds every sheet; answers how many bytes it is.
pub fn overview(files: &[u8], page: &mut [u8; LONGEST_OVERVIEW]) -> usize
    ensures { Printed (overview_text files.now) page.old result page.new }
{
    print_season(Pen { at: 0 }, page, filing::tally_files(files)).at
}
