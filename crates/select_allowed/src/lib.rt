// Which SELECTs are allowed, of those of an ELVIS III: all pins at once, in a number with two bits for each.
#![tactic(auto)]

ghost use Rattle.std.specs.Prelude.{◌≡◌};
ghost use Rattle.select_allowed.specs.Allowed.{allowed};
ghost use Rattle.select_allowed.specs.How.{threes, twos};

// The low bit of each pin's field, and of each pair's four bits.
pub const PINS: u64 = 0x5555555555;

const PAIRS: u64 = 0x1111111111;

// PINS of 5, 6 and 7, of 14 and 15, and of these five.
const SPI: u64 = 0x5400;

const I2C: u64 = 0x50000000;

const BOTH: u64 = 0x50005400;

// The pins that are 3: both bits.
fn threes(select: u64) -> u64
    ensures { result ≡ threes select }
{
    (select & (select >> 1)) & PINS
}

// The pins that are 2: the high bit without the low one.
fn twos(select: u64) -> u64
    ensures { result ≡ twos select }
{
    ((select | (select >> 1)) ^ select) & PINS
}

// Whether the combination is allowed: the pins that are 3 are none, those of SPI, those of I2C or both; the pins that
// are 2 are the low pins of pairs, each with the next one (1 + 4 times).
pub fn allowed(port: bool, select: u64) -> bool
    ensures { result ≡ allowed port select }
{
    if port {
        return true;
    }
    let serial = threes(select);
    let encoders = twos(select);
    ((serial == 0) | ((serial == SPI) | ((serial == I2C) | (serial == BOTH))))
        & ((encoders & PAIRS) * 5 == encoders)
}
