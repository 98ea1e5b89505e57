// What `rvz pwm`, `spi`, `pwm-rate` and `spi-rate` print.
#![tactic(auto)]

ghost use Rattle.std.specs.Prelude.{◌≡◌};
ghost use Rattle.outside.specs.Counts.{IsPrefixLen};
ghost use Rattle.rate_print.specs.Said.{question_of, rule_of, PairSaid, RateSaid, AnswerSaid};

use rate::{Pair, Ratio};

// Whose clock is divided.
#[derive(Clone, Copy)]
pub enum Clock {
    Pwm,
    Spi,
}

// What the first argument asks for: the pair for a rate, or the rate of a pair.
#[derive(Clone, Copy)]
pub enum Question {
    Find(Clock),
    Rate(Clock),
}

// What `say` takes.
pub fn asked(word: &[u8]) -> Option<Question>
    ensures { result ≡ question_of word.now }
{
    if word == b"pwm".as_slice() {
        Some(Question::Find(Clock::Pwm))
    } else if word == b"spi".as_slice() {
        Some(Question::Find(Clock::Spi))
    } else if word == b"pwm-rate".as_slice() {
        Some(Question::Rate(Clock::Pwm))
    } else if word == b"spi-rate".as_slice() {
        Some(Question::Rate(Clock::Spi))
    } else {
        None
    }
}

fn say_pair(text: &mut [u8], clock: Clock, a: Option<u64>, b: Option<u64>) -> usize
    ensures { PairSaid (rule_of clock) a b text.old text.new result }
{
    let Some(rate) = a else {
        return text_answers::no_number_text(text, b"RATE");
    };
    let Some(tolerance) = b else {
        return text_answers::no_number_text(text, b"TOL");
    };
    let found = match clock {
        Clock::Pwm => rate::find_pwm(rate, tolerance),
        Clock::Spi => rate::find_spi(rate, tolerance),
    };
    match found {
        Ok(Pair { choice, x, period }) => text_answers::pair_text(text, choice, x, period),
        Err(refusal) => text_answers::refused_text(text, u64::from(refusal.number())),
    }
}

// Not one function with `say_pair`: the names, the call and the text all differ.
fn say_rate(text: &mut [u8], clock: Clock, a: Option<u64>, b: Option<u64>) -> usize
    ensures { RateSaid (rule_of clock) a b text.old text.new result }
{
    let Some(choice) = a else {
        return text_answers::no_number_text(text, b"CHOICE");
    };
    let Some(x) = b else {
        return text_answers::no_number_text(text, b"X");
    };
    let rated = match clock {
        Clock::Pwm => rate::pwm_rate(choice, x),
        Clock::Spi => rate::spi_rate(choice, x),
    };
    match rated {
        Ok(Ratio { clock, period }) => text_answers::rate_text(text, clock, period),
        Err(refusal) => text_answers::refused_text(text, u64::from(refusal.number())),
    }
}

// Nothing where the word asks for no rate.
pub fn say(text: &mut [u8], question: Option<Question>, a: Option<u64>, b: Option<u64>) -> usize
    ensures answer_said { AnswerSaid question a b text.old text.new result }
    ensures prefix_len { IsPrefixLen result text.new }
{
    match question {
        Some(Question::Find(clock)) => say_pair(text, clock, a, b),
        Some(Question::Rate(clock)) => say_rate(text, clock, a, b),
        None => 0,
    }
}
