// An encoder and the I2C of a bank, each in a word of 8 bytes.
#![tactic(auto)]

ghost use Rattle.std.specs.Prelude.{◌≡◌, ◌<◌};
ghost use Rattle.encoder_count.specs.Count.{pattern};
ghost use Rattle.i2c.specs.I2c.{state_of, failure_number};
ghost use Rattle.image_words.specs.How.{phase_of, failure_of, i2c_number, i2c_of, is_i2c, low_number, encoder_of, is_encoder};

use encoder::Encoder;
use i2c::I2c;
use i2c_code::{Failure, Phase};

// ---- an encoder

// Of an encoder in range, whose CNFG and STAT are bytes.
#[tactic(auto, unfolding(crate::specs::How::low_number))]
pub fn encoder_number(e: Encoder) -> u64
    ensures { result ≡ low_number e }
{
    encoder_count::bit_pattern(e.count) as u64
        + 4294967296 * ((e.cnfg % 256) as u64)
        + 1099511627776 * ((e.stat % 256) as u64)
        + 281474976710656 * (e.pins as u64)
        + 72057594037927936 * (e.seen as u64)
}

pub fn encoder_of(v: u64) -> Encoder
    ensures { result ≡ encoder_of v }
{
    Encoder {
        count: encoder_count::count_of((v % 4294967296) as u32),
        cnfg: ((v >> 32) % 256) as u32,
        stat: ((v >> 40) % 256) as u32,
        pins: ((v >> 48) % 256) as u8,
        seen: (v >> 56) % 2 == 1,
    }
}

pub fn is_encoder(v: u64) -> bool
    ensures { result ≡ is_encoder v }
{
    ((v >> 32) % 256 < 32) & (((v >> 40) % 256 < 64) & (((v >> 48) % 256 < 4) & ((v >> 56) < 2)))
}

// ---- the I2C

fn phase_of(n: u64) -> Phase
    ensures { result ≡ phase_of n }
{
    match n {
        0 => Phase::Idle,
        1 => Phase::TxIdle,
        _ => Phase::RxIdle,
    }
}

fn failure_of(n: u64) -> Option<Failure>
    requires { n < 256 }
    ensures { result ≡ failure_of n }
{
    match n {
        0 => None,
        1 => Some(Failure::Address),
        2 => Some(Failure::Data),
        _ => Some(Failure::Other(n as u8)),
    }
}

#[tactic(auto, unfolding(crate::specs::How::i2c_number))]
pub fn i2c_number(c: I2c) -> u64
    ensures { result ≡ i2c_number c }
{
    c.addr as u64
        + 256 * (c.cntl as u64)
        + 65536 * (i2c_code::state(c.phase) as u64)
        + 16777216 * (c.acknowledged as u64)
        + 4294967296 * (c.answer as u64)
        + 1099511627776 * (i2c_code::number(c.failure) as u64)
}

#[tactic(auto, unfolding(crate::specs::How::i2c_of))]
pub fn i2c_of(v: u64) -> I2c
    ensures { result ≡ i2c_of v }
{
    I2c {
        addr: (v % 256) as u8,
        cntl: ((v >> 8) % 256) as u8,
        phase: phase_of((v >> 16) % 256),
        acknowledged: (v >> 24) % 2 == 1,
        answer: ((v >> 32) % 256) as u8,
        failure: failure_of((v >> 40) % 256),
    }
}

pub fn is_i2c(v: u64) -> bool
    ensures { result ≡ is_i2c v }
{
    ((v >> 8) % 256 < 16)
        & (((v >> 16) % 256 < 3)
            & (((v >> 24) % 256 < 2) & (((v >> 32) % 256 < 4) & ((v >> 40) < 3))))
}
