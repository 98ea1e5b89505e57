// The rate finder: the divider choice and X whose rate is nearest to a wanted one, and the rate that a choice and X give.
#![tactic(auto)]

ghost use Rattle.std.specs.Prelude.{◌≡◌, ◌≤◌, ◌<◌};
ghost use Rattle.rate.specs.Rate.{pwm, spi, rate_of, rated_numbers, Answer};
ghost use Rattle.rate.specs.How.{Fair, Asked, pair_of};

use divider::divider;
use rate_counts::{Bracket, finest, nearer, undivided};
use refused::Refusal;

// The clock's rate in hertz, for rates from registers; its rate and the range of wanted rates, all in the unit of these; the factor of a
// period. PWM and SPI differ in the range and the factor. No invariant: the definitions speak of rules
// that are not fair, too.
#[derive(Clone, Copy)]
pub struct Rule {
    pub hertz: u64,
    pub clock: u64,
    pub low: u64,
    pub high: u64,
    pub base: u64,
}

// A divider choice and X, and the period that they make, in ticks.
#[derive(Clone, Copy)]
pub struct Pair {
    pub choice: u64,
    pub x: u64,
    pub period: u64,
}

// A rate as a fraction: the clock's rate over the period in ticks.
#[derive(Clone, Copy)]
pub struct Ratio {
    pub clock: u64,
    pub period: u64,
}

const PWM: Rule = Rule {
    hertz: 40_000_000,
    clock: 40_000_000_000,
    low: 40_000,
    high: 40_000_000,
    base: 1,
};

const SPI: Rule = Rule {
    high: 4_000_000_000,
    base: 2,
    ..PWM
};

// The pair of a choice and a count, with the smaller divider where two make the same period.
fn pair_of(choice: u64, count: u64, period: u64) -> Pair
    requires { (0 < count) × (count ≤ 65_536) }
    ensures { result ≡ pair_of choice count period }
{
    if 1 < choice && count <= 32_768 {
        return Pair {
            choice: choice - 1,
            x: 2 * count - 1,
            period,
        };
    }
    Pair {
        choice,
        x: count - 1,
        period,
    }
}

// The answer from the bracket of the finest divider. No product is larger than the two that are compared here: each is at most 1,000,000
// times 49,000,000,000, below 2^56.
fn answer(rule: Rule, f: u64, tol: u64, a: Bracket) -> Result<Pair, Refusal>
    requires { Asked rule f tol a }
    ensures { Answer rule f tol result }
{
    let step = f * rule.base * a.divider;
    let near = nearer(rule.clock, step, a.low);
    if 1_000_000 * near.miss <= tol * (step * near.count) {
        Ok(pair_of(a.choice, near.count, rule.base * a.divider * near.count))
    } else {
        Err(Refusal::NoPair)
    }
}

// The answer for the wanted rate `f` and the tolerance `tol`, in parts per million. Most rates need no divider, and are answered sooner for
// being told apart here.
fn find(rule: Rule, f: u64, tol: u64) -> Result<Pair, Refusal>
    requires { Fair rule }
    ensures { Answer rule f tol result }
{
    if f < rule.low || rule.high < f {
        return Err(Refusal::RateOutOfRange);
    }
    if 1_000_000 < tol {
        return Err(Refusal::ToleranceTooLarge);
    }
    let step = f * rule.base;
    let a = undivided(rule.clock, step);
    if a.low < 65_536 {
        return answer(rule, f, tol, a);
    }
    answer(rule, f, tol, finest(rule.clock, step))
}

// The pair for a PWM rate in millihertz, within the tolerance in parts per million. Here and below one call for each clock, as C has them.
pub fn find_pwm(f: u64, tol: u64) -> Result<Pair, Refusal>
    ensures { Answer (pwm 1_000) f tol result }
{
    find(PWM, f, tol)
}

// The pair for an SPI rate.
pub fn find_spi(f: u64, tol: u64) -> Result<Pair, Refusal>
    ensures { Answer (spi 1_000) f tol result }
{
    find(SPI, f, tol)
}

// The rate of a divider choice and X.
fn rate_of(rule: Rule, choice: u64, x: u64) -> Result<Ratio, Refusal>
    requires { Fair rule }
    ensures { rated_numbers result ≡ rate_of rule choice x }
{
    let divider = divider(choice).ok_or(Refusal::NoSuchPair)?;
    if 65_535 < x {
        return Err(Refusal::NoSuchPair);
    }
    Ok(Ratio {
        clock: rule.hertz,
        period: rule.base * divider * (x + 1),
    })
}

// The rate that PWM registers give.
pub fn pwm_rate(choice: u64, x: u64) -> Result<Ratio, Refusal>
    ensures { rated_numbers result ≡ rate_of (pwm 1_000) choice x }
{
    rate_of(PWM, choice, x)
}

// The rate that SPI registers give.
pub fn spi_rate(choice: u64, x: u64) -> Result<Ratio, Refusal>
    ensures { rated_numbers result ≡ rate_of (spi 1_000) choice x }
{
    rate_of(SPI, choice, x)
}
