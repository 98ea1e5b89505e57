// A PWM channel in two words of 8 bytes: its registers, and what ticks move.
#![tactic(auto)]

ghost use Rattle.std.specs.Prelude.{◌≡◌};
ghost use Rattle.image_pwm.specs.How.{registers_number, registers_of, is_registers, is_quick, wave_number, wave_of, pwm_of};

use pwm::{Pwm, Registers, Wave};

#[tactic(auto, unfolding(crate::specs::How::registers_number))]
pub fn registers_number(g: Registers) -> u64
    ensures { result ≡ registers_number g }
{
    g.max as u64
        + 65536 * (g.cmp as u64)
        + 4294967296 * (g.cnfg as u64)
        + 281474976710656 * (g.cs as u64)
}

#[tactic(auto, unfolding(crate::specs::How::wave_number))]
pub fn wave_number(w: Wave) -> u64
    ensures { result ≡ wave_number w }
{
    w.counter as u64 + 65536 * (w.remainder as u64) + 16777216 * (w.output as u64)
}

#[tactic(auto, unfolding(crate::specs::How::registers_of))]
fn registers_of(v: u64) -> Registers
    ensures { result ≡ registers_of v }
{
    Registers {
        max: (v % 65536) as u16,
        cmp: ((v >> 16) % 65536) as u16,
        cnfg: ((v >> 32) % 65536) as u16,
        cs: (v >> 48) as u16,
    }
}

#[tactic(auto, unfolding(crate::specs::How::wave_of))]
fn wave_of(v: u64) -> Wave
    ensures { result ≡ wave_of v }
{
    Wave {
        counter: (v % 65536) as u16,
        remainder: ((v >> 16) % 256) as u8,
        output: (v >> 24) % 2 == 1,
    }
}

pub fn pwm_of(v: u64, w: u64) -> Pwm
    ensures { result ≡ pwm_of v w }
{
    Pwm {
        registers: registers_of(v),
        wave: wave_of(w),
    }
}

// CNFG is 0, 1, 4 or 5 where it is below 8 with bit 1 at 0: the compiler makes one test of it and of CS.
pub fn is_registers(v: u64) -> bool
    ensures { result ≡ is_registers v }
{
    let cnfg = (v >> 32) % 65536;
    ((cnfg < 8) & (cnfg / 2 % 2 == 0)) & ((v >> 48) < 8)
}

// Whether the remainder is below N, of registers that are ones.
pub fn is_short(v: u64, w: u64) -> bool
    ensures { result ≡ is_quick v w }
{
    ((w >> 16) % 256 * 2) >> ((v >> 48) % 64) == 0
}
