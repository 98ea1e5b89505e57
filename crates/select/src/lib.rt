// The function select: which blocks are routed to the 20 DIO pins of an ELVIS III, or to a myRIO's expansion port.
#![tactic(auto)]

ghost use Rattle.std.specs.Prelude.{◌≡◌, true};
ghost use Rattle.select.specs.Select.{field_of, encoder_routed, pwm_routed, i2c_routed};
ghost use Rattle.select.specs.How.{pwm_pins};

use select_allowed::PINS;

// The two bits of a pin.
fn field(select: u64, pin: usize) -> u64
    ensures { result ≡ field_of select pin }
{
    if pin < 20 {
        (select >> (2 * pin)) % 4
    } else {
        0
    }
}

// The PWM channels that are routed: bit 2 i of the answer for channel i, and nothing else.
pub fn pwm_pins(port: bool, select: u64) -> u64
    ensures { result ≡ pwm_pins port select }
{
    if port {
        (select >> 2) % 2 + (select >> 3) % 2 * 4 + (select >> 4) % 2 * 16
    } else {
        ((select | (select >> 1)) ^ (select >> 1)) & PINS
    }
}

// The two pins of encoder i are 2 both: their four bits are 1010.
pub fn encoder_routed(port: bool, select: u64, i: usize) -> bool
    ensures { result ≡ encoder_routed port select i }
{
    if port {
        return (i == 0) & ((select >> 5) % 2 == 1);
    }
    // an early return: as one expression it is compiled without a branch, and takes more instructions
    if i < 10 {
        return (select >> (4 * i)) % 16 == 10;
    }
    false
}

pub fn pwm_routed(port: bool, select: u64, i: usize) -> bool
    ensures { result ≡ pwm_routed port select i }
{
    if port {
        (i < 3) && (select >> (2 + i)) % 2 == 1
    } else {
        field(select, i) == 1
    }
}

// Pins 14 and 15 are 3 both.
pub fn i2c_routed(port: bool, select: u64) -> bool
    ensures { result ≡ i2c_routed port select }
{
    if port {
        (select >> 7) % 2 == 1
    } else {
        (select >> 28) % 16 == 15
    }
}
