// One bank: the four blocks.
#![tactic(auto)]

ghost use Rattle.std.specs.Prelude.{◌≡◌};
ghost use Rattle.bank.specs.Bank.{fresh, reroute};

use encoder::Encoder;
use i2c::I2c;
use pwm::Pwm;

#[derive(Clone, Copy)]
pub struct Bank {
    pub select: u64,
    pub encoders: [Encoder; 10],
    pub pwms: [Pwm; 20],
    pub i2c: I2c,
}

#[tactic(auto, unfolding(crate::specs::Bank::fresh))]
pub fn fresh() -> Bank
    ensures { result ≡ fresh }
{
    Bank {
        select: 0,
        encoders: [Encoder::fresh(); 10],
        pwms: [Pwm::fresh(); 20],
        i2c: I2c::fresh(),
    }
}

// One encoder, where SELECT goes from old to new.
pub fn reroute(port: bool, old: u64, new: u64, i: usize, e: Encoder) -> Encoder
    ensures { result ≡ reroute port old new i e }
{
    e.rerouted(
        select::encoder_routed(port, old, i),
        select::encoder_routed(port, new, i),
    )
}
