// What refuses a record that is decoded, by its edition and the SELECT and the I2C of its bank: 9, 10, 11, 16 or 18.
#![tactic(auto)]

ghost use Rattle.std.specs.Prelude.{◌≡◌};
ghost use Rattle.refusals.specs.How.{unrouted, cnfg_refusal, select_refusal, go_refusal, i2c_refusal, refusal_of};

use edition::Edition;
use i2c::I2c;
use records::Record;
use refused::Refusal;

fn unrouted(routed: bool) -> Result<(), Refusal>
    ensures { result ≡ unrouted routed }
{
    if routed {
        Ok(())
    } else {
        Err(Refusal::NotRouted)
    }
}

fn cnfg_refusal(quadrature: bool, routed: bool, v: u64) -> Result<(), Refusal>
    ensures { result ≡ cnfg_refusal quadrature routed v }
{
    unrouted(routed)?;
    if quadrature & ((v >> 2) % 2 == 1) {
        Err(Refusal::StepAndDirection)
    } else {
        Ok(())
    }
}

fn select_refusal(port: bool, v: u64) -> Result<(), Refusal>
    ensures { result ≡ select_refusal port v }
{
    if select_allowed::allowed(port, v) {
        Ok(())
    } else {
        Err(Refusal::WrongSelect)
    }
}

fn go_refusal(c: I2c) -> Result<(), Refusal>
    ensures { result ≡ go_refusal c }
{
    if !c.permits() {
        return Err(Refusal::WrongControl);
    }
    if c.forbids() {
        return Err(Refusal::StopAfterAck);
    }
    Ok(())
}

fn i2c_refusal(routed: bool, register: u64, c: I2c) -> Result<(), Refusal>
    ensures { result ≡ i2c_refusal routed register c }
{
    if !routed {
        return Err(Refusal::NotRouted);
    }
    match register {
        0 | 1 => Ok(()),
        _ => go_refusal(c),
    }
}

#[tactic(auto, unfolding(crate::specs::How::refusal_of))]
pub fn refusal(edition: Edition, select: u64, c: I2c, r: Record) -> Result<(), Refusal>
    ensures { result ≡ refusal_of edition select c r }
{
    match r {
        Record::WriteSelect(v) => select_refusal(edition.port, v),
        Record::WriteEncoder(channel, value) => cnfg_refusal(
            edition.quadrature,
            select::encoder_routed(edition.port, select, channel),
            value,
        ),
        Record::WritePwm(channel, _, _) => unrouted(select::pwm_routed(
            edition.port,
            select,
            channel,
        )),
        Record::WriteI2c(register, _) => {
            i2c_refusal(select::i2c_routed(edition.port, select), register, c)
        }
        Record::Answer(_) => unrouted(select::i2c_routed(edition.port, select)),
        Record::ReadSelect => Ok(()),
        Record::ReadEncoder(_, _) => Ok(()),
        Record::ReadPwm(_, _) => Ok(()),
        Record::ReadI2c(_) => Ok(()),
        Record::Pins(channel, _) => unrouted(select::encoder_routed(edition.port, select, channel)),
        Record::Ticks(_) => Ok(()),
    }
}
