// Whether a record is refused, or where it goes in the flat arrays, and what it does to the one element that is there.
#![tactic(auto)]

ghost use Rattle.std.specs.Prelude.{◌≡◌, ◌<◌, IfOk};
ghost use Rattle.encoder.specs.Encoder.{on_pins, on_cnfg};
ghost use Rattle.pwm.specs.Pwm.{on_write};
ghost use Rattle.placed.specs.How.{Bounded, Inside, spot_of, placed_of, i2c_after};

use edition::Edition;
use encoder::Encoder;
use i2c::I2c;
use pwm::Pwm;
use records::Record;
use refused::Refusal;

// A record by its channel's place in the array of both banks, and with its register and its value, in this order, where it has them;
// or the number that it reads. Each number is 64 bits wide, so that the variants lie alike and none has to be kept in memory.
#[derive(Clone, Copy)]
pub enum Placed {
    Reads(u64),
    PinsAt(usize, u64),
    CnfgAt(usize, u64),
    ReadEncoderAt(usize, u64),
    WritePwmAt(usize, u64, u64),
    ReadPwmAt(usize, u64),
    SelectTo(u64),
    ToI2c,
    Wait(u64),
}

// One that is not refused, with the SELECT and the I2C of its bank.
#[tactic(auto, unfolding(crate::specs::How::spot_of))]
fn spot(select: u64, c: I2c, bank: usize, r: Record) -> Placed
    requires bank_bound { bank < 2 }
    requires bounded { Bounded r }
    ensures value { result ≡ spot_of select c bank r }
    ensures inside { Inside result }
{
    match r {
        Record::WriteSelect(v) => Placed::SelectTo(v),
        Record::WriteEncoder(channel, value) => Placed::CnfgAt(10 * bank + channel, value),
        Record::WritePwm(channel, register, value) => Placed::WritePwmAt(
            20 * bank + channel,
            register,
            value,
        ),
        Record::WriteI2c(_, _) => Placed::ToI2c,
        Record::Answer(_) => Placed::ToI2c,
        Record::ReadSelect => Placed::Reads(select),
        Record::ReadEncoder(channel, register) => Placed::ReadEncoderAt(
            10 * bank + channel,
            register,
        ),
        Record::ReadPwm(channel, register) => Placed::ReadPwmAt(20 * bank + channel, register),
        Record::ReadI2c(register) => Placed::Reads(c.register(register)),
        Record::Pins(channel, value) => Placed::PinsAt(10 * bank + channel, value),
        Record::Ticks(t) => Placed::Wait(t),
    }
}

#[tactic(auto, unfolding(crate::specs::How::placed_of))]
pub fn place(
    edition: Edition,
    select: u64,
    c: I2c,
    bank: usize,
    r: Record,
) -> Result<Placed, Refusal>
    requires bank_bound { bank < 2 }
    requires bounded { Bounded r }
    ensures value { result ≡ placed_of edition select c bank r }
    ensures inside { IfOk result Inside }
{
    refusals::refusal(edition, select, c, r)?;
    Ok(spot(select, c, bank, r))
}

// ---- what it does to the element that is there

pub fn pins(e: Encoder, v: u64) -> Encoder
    requires { v < 256 }
    ensures { result ≡ on_pins v e }
{
    e.pins(v as u8)
}

pub fn cnfg(e: Encoder, v: u64) -> Encoder
    requires { v < 4294967296 }
    ensures { result ≡ on_cnfg v e }
{
    e.write_cnfg(v as u32)
}

pub fn write(p: Pwm, register: u64, v: u64) -> Pwm
    requires { v < 65536 }
    ensures { result ≡ on_write register v p }
{
    p.write(register, v as u16)
}

#[tactic(auto, unfolding(crate::specs::How::i2c_after))]
pub fn i2c_after(c: I2c, r: Record) -> I2c
    requires { Bounded r }
    ensures { result ≡ i2c_after c r }
{
    match r {
        Record::WriteI2c(register, value) => c.write(register, value as u8),
        Record::Answer(value) => c.answer(value as u8),
        Record::WriteSelect(_) => c,
        Record::WriteEncoder(_, _) => c,
        Record::WritePwm(_, _, _) => c,
        Record::ReadSelect => c,
        Record::ReadEncoder(_, _) => c,
        Record::ReadPwm(_, _) => c,
        Record::ReadI2c(_) => c,
        Record::Pins(_, _) => c,
        Record::Ticks(_) => c,
    }
}
