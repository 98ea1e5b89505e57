// A stream between two chunks: records of any edition and any number, and the bytes of one that is not finished; and the small steps of a chunk.
#![tactic(auto)]

ghost use Rattle.std.specs.Prelude.{◌≡◌, ◌+◌, ◌*◌, ◌<◌, ◌≤◌, None, true, is_some, length, drop, nat_le};
ghost use Rattle.std.specs.Result.{result_err};
ghost use Rattle.refused.specs.Number.{number_of};
ghost use Rattle.std.proofs.Math.Seq.{paste};
ghost use Rattle.fold.specs.Device.{records};
ghost use Rattle.wire.specs.Decode.{reads_in};
ghost use Rattle.banks.specs.State.{fresh};
ghost use Rattle.banks.specs.How.{state_of};
ghost use Rattle.live_state.specs.Live.{fresh_of, taken_of, end_of};
ghost use Rattle.live_state.specs.How.{finished, live_of, walked_to, Good};

use banks::Flat;
use encoder::Encoder;
use i2c::I2c;
use pwm::Pwm;
use refused::Refusal;
use walk::Walked;

// The edition's number, both banks laid out flat, the bytes of an unfinished record (those past `held` are 0), how many records were applied,
// modulo 2^64, and what refused the record that stopped it.
#[derive(Clone, Copy)]
pub struct Stream {
    pub edition: u64,
    pub flat: Flat,
    pub carried: [u8; 16],
    pub held: usize,
    pub applied: u64,
    pub refused: Option<Refusal>,
}

// What a chunk came to: the stream afterwards, the refusal that the chunk is answered with, and how many readings it wrote.
#[derive(Clone, Copy)]
pub struct Chunked {
    pub stream: Stream,
    pub refused: Option<Refusal>,
    pub readings: usize,
}

// Laid out at once: `banks::laid_out` of a fresh state takes a thousand instructions.
#[tactic(auto, using(crate::proofs::Laid::fresh_laid))]
fn fresh_flat() -> Flat
    ensures { state_of result ≡ fresh }
{
    Flat {
        selects: [0; 2],
        encoders: [Encoder::fresh(); 20],
        pwms: [Pwm::fresh(); 40],
        i2cs: [I2c::fresh(); 2],
    }
}

pub fn start(edition: u64) -> Stream
    ensures result_value { live_of result ≡ fresh_of edition }
    ensures good { Good result }
{
    Stream {
        edition,
        flat: fresh_flat(),
        carried: [0u8; 16],
        held: 0,
        applied: 0,
        refused: None,
    }
}

// The bytes put behind the first `at` of those that are carried.
pub fn behind(carried: [u8; 16], at: usize, bytes: &[u8]) -> [u8; 16]
    requires { at + length bytes.now ≤ 16 }
    ensures { result ≡ paste carried at bytes.now (length bytes.now) }
{
    let mut b = carried;
    b[at..at + bytes.len()].copy_from_slice(bytes);
    b
}

// A stream after a walk of records behind those that were applied before, and the bytes that are carried on.
pub fn walked_to(s: Stream, walked: Walked, carried: [u8; 16], held: usize) -> Chunked
    ensures { result ≡ walked_to s.edition s.applied walked carried held }
{
    let stop = walked.stop;
    let stream = Stream {
        flat: walked.flat,
        carried,
        held,
        applied: s.applied.wrapping_add(stop.applied as u64),
        refused: stop.refused,
        ..s
    };
    Chunked {
        stream,
        refused: stop.refused,
        readings: stop.readings,
    }
}

// Bytes that finish no record.
pub fn carry(s: Stream, bytes: &[u8]) -> Stream
    requires good { Good s }
    requires refused_value { s.refused ≡ None }
    requires bytes_bound { s.held + length bytes.now < 16 }
    ensures result_value { live_of result ≡ (taken_of (live_of s) bytes.now).live }
    ensures good_2 { Good result }
{
    Stream {
        carried: behind(s.carried, s.held, bytes),
        held: s.held + bytes.len(),
        ..s
    }
}

// Whether there is room for the readings of the record that was begun, `begun` of them, and of n more. Where each could be a read, none needs
// to be counted.
pub fn has_room(begun: usize, bytes: &[u8], at: usize, n: usize, room: usize) -> bool
    requires begun_bound { begun ≤ 1 }
    requires n_in_bounds { at + 16 * n ≤ length bytes.now }
    ensures { result ≡ nat_le (8 * (begun + reads_in (records 16 n (drop at bytes.now)))) room }
{
    if n < room / 8 {
        return true;
    }
    begun + wire::reads(bytes, at, n) <= room / 8
}

pub fn answered(s: Stream, refused: Option<Refusal>) -> Chunked
    ensures { result ≡ record { stream = s; refused = refused; readings = 0 } }
{
    Chunked {
        stream: s,
        refused,
        readings: 0,
    }
}

pub fn end(s: Stream) -> Result<(), Refusal>
    requires { Good s }
    ensures number { number_of (result_err result) ≡ end_of (live_of s) }
    ensures same { is_some s.refused ≡ true → result_err result ≡ s.refused }
{
    match s.refused {
        Some(refusal) => Err(refusal),
        None if s.held == 0 => Ok(()),
        None => Err(Refusal::WrongDistance),
    }
}
