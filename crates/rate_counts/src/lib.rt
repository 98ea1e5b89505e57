// The counts next to a wanted rate: of the finest divider whose counts go past it, and the nearer of the two.
#![tactic(auto)]

ghost use Rattle.std.specs.Prelude.{◌≡◌, ◌<◌, ◌^◌};
ghost use Rattle.rate_counts.specs.How.{Fit, Brackets, Around, undivided_of, coarser_of, nearer_of};

// A divider choice, what it divides by, and its counts next to the wanted rate: `low` counts are at or under the clock's rate, one more is
// past it.
#[derive(Clone, Copy)]
pub struct Bracket {
    pub choice: u64,
    pub divider: u64,
    pub low: u64,
}

// A count, and how far it is from the clock's rate.
#[derive(Clone, Copy)]
pub struct Nearest {
    pub count: u64,
    pub miss: u64,
}

// The bracket of the clock undivided. A step is the wanted rate times the ticks of a count.
pub fn undivided(clock: u64, step: u64) -> Bracket
    requires { 0 < step }
    ensures { result ≡ undivided_of clock step }
{
    Bracket {
        choice: 1,
        divider: 1,
        low: clock / step,
    }
}

// The bracket of the next coarser divider.
fn coarser(a: Bracket) -> Bracket
    requires { (a.choice < 8) × (a.divider < 2 ^ 63) }
    ensures { result ≡ coarser_of a }
{
    Bracket {
        choice: a.choice + 1,
        divider: 2 * a.divider,
        low: a.low / 2,
    }
}

// The bracket of the finest divider whose counts go past the clock's rate. No `for`: nothing is counted, the counts are halved until they fit.
pub fn finest(clock: u64, step: u64) -> Bracket
    requires { Fit clock step }
    ensures { (Brackets clock step result) × (result.low < 65_536) }
{
    let mut a = undivided(clock, step);
    while 65_536 <= a.low {
        a = coarser(a);
    }
    a
}

// The nearer of the bracket's two counts, the fewer where both are as near. Errors are fractions, so each is crossed with the other's count.
// Crossed with the other's steps, which comes to the same, the products outgrow 64 bits.
pub fn nearer(clock: u64, step: u64, low: u64) -> Nearest
    requires { Around clock step low }
    ensures { result ≡ nearer_of clock step low }
{
    let under = step * low;
    let short = clock - under;
    let over = step - short;
    if short * (low + 1) <= over * low {
        Nearest {
            count: low,
            miss: short,
        }
    } else {
        Nearest {
            count: low + 1,
            miss: over,
        }
    }
}
