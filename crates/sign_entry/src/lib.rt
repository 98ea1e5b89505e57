// An entry of a stretch: its sums while it is counted, and its verdict.
#![tactic(auto)]

ghost use Rattle.std.specs.Prelude.{◌≡◌, ◌+◌, ◌*◌, ◌<◌, ◌≤◌, length};
ghost use Rattle.std.proofs.Math.IntN.{sub_ℕ};
ghost use Rattle.std.proofs.lemmas.List.Edits.{sets};
ghost use Rattle.encoder.specs.Encoder.{places};
ghost use Rattle.sign_line.specs.How.{begun_line};
ghost use Rattle.sign_entry.specs.Entry.{complement, verdict_of};
ghost use Rattle.sign_entry.specs.How.{begin_bytes, pair_of, counted_at, Fitting, number, direction_of, settled_by, settled_at, settled_to};

use sign_line::{Line, Stretch};

// What a stretch's steps settle, with the number that its entry holds.
#[derive(Clone, Copy)]
enum Direction {
    Open = 0,
    Forward = 1,
    Backward = 2,
    Still = 3,
}

impl Direction {
    fn number(self) -> u8
        ensures { result ≡ number self }
    {
        self as u8
    }
}

// ---- an entry

#[tactic(auto, using(crate::proofs::Bytes::two_eights))]
fn put_pair(out: &mut [u8], at: usize, a: u64, b: u64)
    requires { at + 16 ≤ length out.old }
    ensures { out.new ≡ sets out.old at (pair_of a b) }
{
    numbers::put64(out, at, a);
    numbers::put64(out, at + 8, b);
}

// The entry and the line of a first pins record.
#[tactic(auto, using(crate::proofs::Bytes::begun_is))]
pub fn begin(out: &mut [u8], place: usize, e: usize, index: usize, v: u8) -> Line
    requires { Fitting e index place (length out.old) }
    ensures value { result ≡ begun_line place v }
    ensures out_after { out.new ≡ sets out.old (32 * place) (begin_bytes e index) }
{
    let at = 32 * place;
    let named = e / 10 + 256 * (e % 10);
    let first = index as u64;
    put_pair(out, at, (named as u64) + 4294967296 * first, first);
    put_pair(out, at + 16, 0, 0);
    Line {
        counts: true,
        stretch: Some(Stretch { pins: v, place }),
    }
}

// One pins record more of a stretch: it is the last so far, and is counted by its places from the one before.
pub fn go_on(out: &mut [u8], s: Stretch, last: usize, v: u8)
    requires { 32 * s.place + 32 ≤ length out.old }
    ensures { out.new ≡ counted_at (32 * s.place) last (places s.pins v) out.old }
{
    let at = 32 * s.place;
    let tally = at + 16 + 4 * (encoder_pins::places(s.pins, v) as usize);
    let n = numbers::le32(out, tally);
    numbers::put32(out, tally, n + 1);
    numbers::put32(out, at + 8, last as u64);
}

// ---- the entries, from the sums

// Steps that exceed 2d in size settle a direction.
fn verdict(ahead: u64, back: u64, doubles: u64) -> Direction
    requires { (ahead < 4294967296) × (back < 4294967296) × (doubles < 4294967296) }
    ensures { result ≡ direction_of (verdict_of (sub_ℕ ahead back) doubles) }
{
    if back + 2 * doubles < ahead {
        Direction::Forward
    } else if ahead + 2 * doubles < back {
        Direction::Backward
    } else if doubles == 0 {
        Direction::Still
    } else {
        Direction::Open
    }
}

fn difference(ahead: u64, back: u64) -> u64
    ensures { result ≡ complement (sub_ℕ ahead back) }
{
    ahead.wrapping_sub(back)
}

#[tactic(auto, using(crate::proofs::Bytes::sums_put, crate::proofs::Bytes::stays_long))]
fn put_sums(out: &mut [u8], at: usize, same: u64, ahead: u64, doubles: u64, back: u64)
    requires at_in_bounds { at + 32 ≤ length out.old }
    requires same_bound { (same < 4294967296) × (ahead < 4294967296) × (doubles < 4294967296) × (back < 4294967296) }
    ensures { out.new ≡ settled_by at same ahead doubles back out.old }
{
    numbers::put32(out, at + 12, 1 + same + ahead + doubles + back);
    put_pair(out, at + 16, difference(ahead, back), doubles);
    out[at + 2] = verdict(ahead, back, doubles).number();
}

#[tactic(auto, using(crate::proofs::Bytes::settled_is))]
fn settle_one(out: &mut [u8], at: usize)
    requires { at + 32 ≤ length out.old }
    ensures { out.new ≡ settled_at at out.old }
{
    let same = numbers::le32(out, at + 16);
    let ahead = numbers::le32(out, at + 20);
    let doubles = numbers::le32(out, at + 24);
    let back = numbers::le32(out, at + 28);
    put_sums(out, at, same, ahead, doubles, back);
}

#[tactic(auto, using(crate::proofs::Bytes::settled_none, crate::proofs::Bytes::settled_more))]
pub fn settle(out: &mut [u8], count: usize)
    requires { 32 * count ≤ length out.old }
    ensures { out.new ≡ settled_to count out.old }
{
    for j in 0..count {
        settle_one(out, 32 * j);
    }
}
