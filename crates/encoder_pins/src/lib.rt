// An encoder's pins: how many places on they are, and when they become unseen.
#![tactic(auto)]

ghost use Rattle.std.specs.Prelude.{◌≡◌, ◌||◌};
ghost use Rattle.bits.specs.Bits.{changes};
ghost use Rattle.encoder_pins.specs.Pins.{en, mode, forward, places};

// How many places forward pins go, of four: three are one back, and at two both pins have changed.
#[derive(Clone, Copy)]
pub enum Change {
    Same,
    Forward,
    Double,
    Back,
}

use Change::{Back, Double, Forward, Same};

// At old * 4 + new. A static, since a const would be copied for each look-up.
static PLACES: [Change; 16] = [
    Same, Forward, Back, Double, Back, Same, Double, Forward, Forward, Double, Same, Back, Double,
    Back, Forward, Same,
];

pub fn places(old: u8, new: u8) -> Change
    ensures { forward result ≡ places old new }
{
    let i = ((old % 4) as usize) * 4 + ((new % 4) as usize);
    PLACES[i]
}

// Whether a write of v to CNFG, which was c, makes the pins unseen.
pub fn unsees(c: u32, v: u32) -> bool
    ensures { result ≡ changes (en c) (en v) || changes (mode c) (mode v) }
{
    ((c % 2 == 1) != (v % 2 == 1)) | ((c / 4 % 2 == 1) != (v / 4 % 2 == 1))
}
