// The answers of the steps, as C sees them.
ghost use Rattle.std.specs.Prelude.{◌≡◌};
ghost use Rattle.terms.specs.Outcome.{says};
ghost use Rattle.results.specs.Results.{size_seen, split_seen, start_seen, draw_seen, project_seen, verdict_number, judge_seen};

use crate::{DrawResult, JudgeResult, ProjectResult, SizeResult, SplitResult, StartResult, head};
use judge::{Judgement, Verdict};
use project::Projection;
use split::Figures;
use start::Chosen;
use terms::{Refusal, Told};

impl From<Result<u64, Refusal>> for SizeResult {
    ghost from_gives = { λ answer r. r ≡ size_seen (says answer) };

    fn from(answer: Result<u64, Refusal>) -> SizeResult {
        let Told { number, place } = head(answer);
        SizeResult {
            refusal: number,
            place,
            draws: answer.unwrap_or(0),
        }
    }
}

const NO_FIGURES: Figures = Figures {
    interval: 0,
    draws_left: 0,
    sampled_total: 0,
    full_lines: 0,
    full_total: 0,
};

impl From<Result<Figures, Refusal>> for SplitResult {
    ghost from_gives = { λ answer r. r ≡ split_seen (says answer) };

    fn from(answer: Result<Figures, Refusal>) -> SplitResult {
        let Told { number, place } = head(answer);
        let figures = answer.unwrap_or(NO_FIGURES);
        SplitResult {
            refusal: number,
            place,
            interval: figures.interval,
            draws_left: figures.draws_left,
            sampled_total: figures.sampled_total,
            full_lines: figures.full_lines,
            full_total: figures.full_total,
        }
    }
}

const NO_START: Chosen = Chosen { start: 0, words: 0 };

impl From<Result<Chosen, Refusal>> for StartResult {
    ghost from_gives = { λ answer r. r ≡ start_seen (says answer) };

    fn from(answer: Result<Chosen, Refusal>) -> StartResult {
        let Told { number, place } = head(answer);
        let chosen = answer.unwrap_or(NO_START);
        StartResult {
            refusal: number,
            place,
            start: chosen.start,
            words: chosen.words,
        }
    }
}

impl From<Result<u64, Refusal>> for DrawResult {
    ghost from_gives = { λ answer r. r ≡ draw_seen (says answer) };

    fn from(answer: Result<u64, Refusal>) -> DrawResult {
        let Told { number, place } = head(answer);
        DrawResult {
            refusal: number,
            place,
            drawn: answer.unwrap_or(0),
        }
    }
}

const NO_PROJECTION: Projection = Projection {
    full: 0,
    sampled: 0,
    m: 0,
    under_full: 0,
    under_sampled: 0,
    net: 0,
};

impl From<Result<Projection, Refusal>> for ProjectResult {
    ghost from_gives = { λ answer r. r ≡ project_seen (says answer) };

    fn from(answer: Result<Projection, Refusal>) -> ProjectResult {
        let Told { number, place } = head(answer);
        let projection = answer.unwrap_or(NO_PROJECTION);
        ProjectResult {
            refusal: number,
            place,
            full: projection.full,
            sampled: projection.sampled,
            m: projection.m,
            under_full: projection.under_full,
            under_sampled: projection.under_sampled,
            net: projection.net,
        }
    }
}

// The number of a verdict; 0 is none of them.
#[tactic(auto, unfolding(crate::specs::Results::verdict_number))]
fn verdict_number(verdict: Verdict) -> u64
    ensures { result ≡ verdict_number verdict }
{
    match verdict {
        Verdict::Below => 1,
        Verdict::Inconclusive => 2,
        Verdict::Above => 3,
    }
}

const NO_JUDGEMENT: JudgeResult = JudgeResult {
    refusal: 0,
    place: 0,
    full: 0,
    sampled: 0,
    m: 0,
    under_full: 0,
    under_sampled: 0,
    net: 0,
    precision: 0,
    upper_limit: 0,
    verdict: 0,
};

impl From<Result<Judgement, Refusal>> for JudgeResult {
    ghost from_gives = { λ answer r. r ≡ judge_seen (says answer) };

    fn from(answer: Result<Judgement, Refusal>) -> JudgeResult {
        let Told { number, place } = head(answer);
        let Ok(judgement) = answer else {
            return JudgeResult {
                refusal: number,
                place,
                ..NO_JUDGEMENT
            };
        };
        JudgeResult {
            refusal: 0,
            place: 0,
            full: judgement.projection.full,
            sampled: judgement.projection.sampled,
            m: judgement.projection.m,
            under_full: judgement.projection.under_full,
            under_sampled: judgement.projection.under_sampled,
            net: judgement.projection.net,
            precision: judgement.precision,
            upper_limit: judgement.upper_limit,
            verdict: verdict_number(judgement.verdict),
        }
    }
}
