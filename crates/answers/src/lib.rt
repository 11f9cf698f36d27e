// What a test program prints of an operation's answer: its figures, each after a space, or " refused", the number and the place; after
// the figures of a projection its net with its sign, and after those of a judgement the limits and the word of the verdict.
#![tactic(auto)]

ghost use Rattle.std.specs.Prelude.{◌∷◌};
ghost use Rattle.pen.specs.Text.{signed_text};
ghost use Rattle.pen.specs.Page.{Wrote};
ghost use Rattle.answers.specs.Answers.{figures_text, rest_text, answer_text, verdict_text};

use pen::Pen;
use std::io;

// What follows the first figures: the net; and of a judgement also the precision, the upper limit and the verdict's number.
#[derive(Clone, Copy)]
pub enum Rest {
    Nothing,
    Net(i64),
    Judged(i64, u64, u64, u64),
}

// The answer of any operation, in the numbers that C sees: a refusal's number is 0 where the call is accepted.
#[derive(Clone, Copy)]
pub struct Answer {
    pub refusal: u64,
    pub place: u64,
    pub figures: [u64; 5],
    pub count: usize,
    pub rest: Rest,
}

// The first figures, each after a space.
#[tactic(auto, using(crate::proofs::Texts::first_figures), unfolding(crate::specs::Answers::figures_text))]
fn put_figures(pen: Pen, page: &mut [u8], figures: [u64; 5], count: usize) -> Pen
    ensures { Wrote page.old pen.at (figures_text count figures) page.new result.at }
{
    pen.fields(page, &figures[..count.min(5)])
}

// The word of a verdict by its number; 0 has none.
#[tactic(auto, using(pen::proofs::Writing::nothing), unfolding(crate::specs::Answers::verdict_text))]
fn put_verdict(pen: Pen, page: &mut [u8], verdict: u64) -> Pen
    ensures { Wrote page.old pen.at (verdict_text verdict) page.new result.at }
{
    match verdict {
        1 => pen.text(page, b" below"),
        2 => pen.text(page, b" inconclusive"),
        3 => pen.text(page, b" above"),
        _ => pen,
    }
}

// The net after a space, with its sign.
#[tactic(auto, using(pen::proofs::Writing::after_space))]
fn put_net(pen: Pen, page: &mut [u8], net: i64) -> Pen
    ensures { Wrote page.old pen.at (32 ∷ signed_text net) page.new result.at }
{
    pen.byte(page, b' ').signed(page, net)
}

// What follows the first figures.
#[tactic(auto, using(pen::proofs::Writing::nothing), unfolding(crate::specs::Answers::rest_text))]
fn put_rest(pen: Pen, page: &mut [u8], rest: Rest) -> Pen
    ensures { Wrote page.old pen.at (rest_text rest) page.new result.at }
{
    match rest {
        Rest::Nothing => pen,
        Rest::Net(net) => put_net(pen, page, net),
        Rest::Judged(net, precision, limit, verdict) => {
            let limited = put_net(pen, page, net).fields(page, &[precision, limit]);
            put_verdict(limited, page, verdict)
        }
    }
}

// The figures with what follows them, or the refusal.
#[tactic(auto, unfolding(crate::specs::Answers::answer_text))]
pub fn put(pen: Pen, page: &mut [u8], answer: Answer) -> Pen
    ensures { Wrote page.old pen.at (answer_text answer.refusal answer.place answer.count answer.figures answer.rest) page.new result.at }
{
    if answer.refusal > 0 {
        return pen
            .text(page, b" refused")
            .fields(page, &[answer.refusal, answer.place]);
    }
    let told = put_figures(pen, page, answer.figures, answer.count);
    put_rest(told, page, answer.rest)
}

// Ends the line of a page and writes it to standard output.
pub fn write_line(rt: &impl Print, page: &mut [u8], pen: Pen) -> io::Result<()> {
    let ended = pen.byte(page, b'\n');
    rt.write_all(parts::front(page, ended.at))
}
