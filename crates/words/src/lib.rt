// The one number that answers each call for C: the refusal in the low byte, 0 if none, and above it the parts of the answer.
#![tactic(auto)]

ghost use Rattle.std.specs.Prelude.{◌≡◌, ◌<◌, ◌^◌};
ghost use Rattle.refused.specs.Number.{number_of};
ghost use Rattle.transcript.specs.Judge.{verdict_numbers};
ghost use Rattle.rate.specs.Rate.{found_numbers, rated_numbers};
ghost use Rattle.words.specs.Word.{Word, judged_in};
ghost use Rattle.words.specs.How.{find_word, rate_word};

use rate::{Pair, Ratio};
use refused::Refusal;
use transcript::Verdict;

pub fn word(refused: Option<Refusal>, number: usize) -> u64
    requires { number < 2 ^ 56 }
    ensures { Word (number_of refused) number result }
{
    let low = match refused {
        Some(refusal) => refusal.number(),
        None => 0,
    };
    u64::from(low) + 256 * (number as u64)
}

pub fn verdict_word(verdict: Result<Verdict, Refusal>) -> u64
    requires { (verdict_numbers verdict).2 < 2048 }
    ensures { judged_in result ≡ verdict_numbers verdict }
{
    match verdict {
        Ok(Verdict::Same) => 256,
        Ok(Verdict::Negated) => 512,
        Ok(Verdict::Both) => 768,
        Ok(Verdict::Different(i)) => 1_024 + 65_536 * (i as u64),
        Err(refusal) => u64::from(refusal.number()),
    }
}

pub fn find_word(found: Result<Pair, Refusal>) -> u64
    requires { ((found_numbers found).1 < 2 ^ 8) × ((found_numbers found).2 < 2 ^ 16) × ((found_numbers found).3 < 2 ^ 32) }
    ensures { result ≡ find_word (found_numbers found) }
{
    match found {
        Ok(Pair { choice, x, period }) => 256 * choice + 65_536 * x + 4_294_967_296 * period,
        Err(refusal) => u64::from(refusal.number()),
    }
}

pub fn rate_word(rated: Result<Ratio, Refusal>) -> u64
    requires { ((rated_numbers rated).2 < 2 ^ 24) × ((rated_numbers rated).1 < 2 ^ 32) }
    ensures { result ≡ rate_word (rated_numbers rated) }
{
    match rated {
        Ok(Ratio { clock, period }) => 256 * period + 4_294_967_296 * clock,
        Err(refusal) => u64::from(refusal.number()),
    }
}
