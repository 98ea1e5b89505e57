// What is made of a log that replays, in a lent buffer: its dump, the smaller log.
#![tactic(auto)]

ghost use Rattle.std.specs.Prelude.{◌≡◌, length};
ghost use Rattle.made.specs.How.{source_of, handed_of, handed_in};

use refused::Refusal;
use trailer::Trailer;

// Why nothing is made, with nothing written: the refusal, and the index of the record that was refused, else 0.
#[derive(Clone, Copy)]
pub struct Failure {
    pub refusal: Refusal,
    pub index: usize,
}

// A refusal that is of no record.
impl From<Refusal> for Failure {
    ghost from_gives = { λ k f. f ≡ record { refusal = k; index = 0 } };

    fn from(refusal: Refusal) -> Failure {
        Failure { refusal, index: 0 }
    }
}

// The trailer of a log that replays. 16,384 bytes have room for the readings of every log.
pub fn source_of(log: &[u8]) -> Result<Trailer, Failure>
    ensures { result ≡ source_of log.now }
{
    let mut readings = [0u8; 16384];
    let stop = replay::replay(log, &mut readings);
    if let Some(refusal) = stop.refused {
        return Err(Failure {
            refusal,
            index: stop.applied,
        });
    }
    Ok(trailer::find(log)?)
}

// Bytes made in a buffer of our own, so that a refusal writes nothing.
pub fn hand_out(bytes: &[u8], out: &mut [u8]) -> Result<usize, Failure>
    ensures value { result ≡ handed_of bytes.now (length out.old) }
    ensures out_after { out.new ≡ handed_in bytes.now out.old }
{
    if out.len() < bytes.len() {
        return Err(Failure::from(Refusal::OutputTooShort));
    }
    out[..bytes.len()].copy_from_slice(bytes);
    Ok(bytes.len())
}
