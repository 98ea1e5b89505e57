// The rate finder. Each answer is one number, whose low byte is the refusal, 0 if none. C has a name for each call, so that they stay apart.
ghost use Rattle.std.specs.Prelude.{◌≡◌};
ghost use Rattle.rate.specs.Rate.{pwm, spi, Outcome, rate_of};
ghost use Rattle.words.specs.Word.{found_in, rated_in};

use words::{find_word, rate_word};

#[unsafe(no_mangle)]
pub extern "C" fn rvz_find_pwm(rate: u64, tolerance: u64) -> u64
    ensures { Outcome (pwm 1_000) rate tolerance (found_in result) }
{
    find_word(rate::find_pwm(rate, tolerance))
}

#[unsafe(no_mangle)]
pub extern "C" fn rvz_find_spi(rate: u64, tolerance: u64) -> u64
    ensures { Outcome (spi 1_000) rate tolerance (found_in result) }
{
    find_word(rate::find_spi(rate, tolerance))
}

#[unsafe(no_mangle)]
pub extern "C" fn rvz_rate_pwm(choice: u64, x: u64) -> u64
    ensures { rated_in result ≡ rate_of (pwm 1_000) choice x }
{
    rate_word(rate::pwm_rate(choice, x))
}

#[unsafe(no_mangle)]
pub extern "C" fn rvz_rate_spi(choice: u64, x: u64) -> u64
    ensures { rated_in result ≡ rate_of (spi 1_000) choice x }
{
    rate_word(rate::spi_rate(choice, x))
}
