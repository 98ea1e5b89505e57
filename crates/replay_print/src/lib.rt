// What `rvz` alone prints: a log's readings and how its replay ended.
#![tactic(auto)]

ghost use Rattle.std.specs.Prelude.{◌≡◌, ◌≤◌, length};
ghost use Rattle.refused.specs.Number.{number_of};
ghost use Rattle.outside.specs.Counts.{IsPrefixLen};
ghost use Rattle.decimal.specs.Put.{Put};
ghost use Rattle.replay_print.specs.Said.{said_of};

use refused::Refusal;
use std::io::Input;

// What refused a record, 0 if nothing did.
fn number(refused: Option<Refusal>) -> u64
    ensures { result ≡ number_of refused }
{
    match refused {
        Some(refusal) => u64::from(refusal.number()),
        None => 0,
    }
}

// What a log's replay prints. 16,384 bytes have room for 2,048 readings, one more than a log can have; their lines, of at most 21 bytes, and
// the last, of at most 58, fit 43,066.
pub fn replay_log(text: &mut [u8], log: &[u8]) -> usize
    ensures put { Put text.old 0 (said_of log.now) text.new result }
    ensures log_len_bound { length (said_of log.now) ≤ 43_066 }
{
    let mut out = [0u8; 16384];
    let stop = replay::replay(log, &mut out);
    let n = 8 * stop.readings;
    text_readings::replay_text(text, &out[..n], stop.applied as u64, number(stop.refused))
}

// One byte more than a log may have, so that an over-long one shows. Not by `printed::of_input`, whose text can be a refusal.
pub fn replay_input(rt: &impl Input, text: &mut [u8]) -> usize
    ensures { IsPrefixLen result text.new }
{
    let mut log = [0u8; 32769];
    let n = outside::read_input(rt, &mut log);
    replay_log(text, &log[..n])
}
