// What is replied to a text of a ledger in strata: its sheet, or its first fault.
#![tactic(auto)]

ghost use Rattle.reply.specs.Reply.{content_reply, reply_of, HasRoom, ReplyPromise};

use entry::Notation;
use notation::Fault;
use pen::Pen;

// No sheet of a text is longer: 136 bytes, 90 for each of 2,048 lines and 349 for each of 32 strata.
pub const LONGEST_REPLY: usize = 195_624;

// The strata of a text whose lines are right: their sheet, or the first that stands where it may not. More counts than are stored are refused as those are.
fn reply_content(
    text: &[u8],
    draws: u64,
    words: &[u64],
    values: &[u64],
    errors: &[i64],
    page: &mut [u8],
) -> Result<usize, Fault>
    requires { HasRoom values.now page.old }
    ensures { ReplyPromise (content_reply draws words.now values.now errors.now text.now) page.old result page.new }
{
    let divided = divided::divide(text)?;
    let stored = divided.strata.min(divided::STORED);
    let end = handout::print_handout(
        Pen { at: 0 },
        page,
        draws,
        &divided.counts[..stored],
        words,
        values,
        errors,
    );
    Ok(end.at)
}

// The sheet of a text at the start of a page that holds every sheet: how many bytes it is; or the text's first fault, and then the page stays as it is.
pub fn reply(text: &[u8], page: &mut [u8; LONGEST_REPLY]) -> Result<usize, Fault>
    ensures { ReplyPromise (reply_of text.now) page.old result page.new }
{
    let mut words = [0u64; workfile::MOST_WORDS];
    let mut values = [0u64; workfile::MOST_FILE_LINES];
    let mut errors = [0i64; workfile::MOST_FILE_LINES];
    let contents = notation::parse(
        text,
        Notation::Programmes,
        &mut words,
        &mut values,
        &mut errors,
    )?;
    let count = contents.words as usize;
    let lines = contents.lines as usize;
    // N's number stands where AE does
    reply_content(
        text,
        contents.ae,
        &words[..count],
        &values[..lines],
        &errors[..lines],
        page,
    )
}
