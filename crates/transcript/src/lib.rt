// A transcript, readings of 8 bytes each in log order, beside the readings of a log that replays.
#![tactic(auto)]

ghost use Rattle.std.specs.Prelude.{◌≡◌, ◌≤◌, ◌&&◌, length, ◌==◌, Ok};
ghost use Rattle.transcript.specs.Judge.{neg, Answer};
ghost use Rattle.transcript.specs.How.{Ready, Plainly};

// The transcript is the replay's readings; it is once every encoder CNTR reading is negated; both; or its reading of an index is the
// first that differs from the replay's.
#[derive(Clone, Copy)]
pub enum Verdict {
    Same,
    Negated,
    Both,
    Different(usize),
}

fn negate(v: u64) -> u64
    ensures { result ≡ neg v }
{
    v.wrapping_neg() % 4_294_967_296
}

fn is_cntr(block: u8, register: u8) -> bool
    ensures { result ≡ (block == 1 && register == 2) }
{
    (block == 1) & (register == 2)
}

// The transcript with the readings as they are.
fn plainly(transcript: &[u8], out: &[u8]) -> Verdict
    requires { length transcript.now ≤ length out.now }
    ensures { Plainly transcript.now out.now result }
{
    for i in 0..transcript.len() / 8 {
        let t = numbers::le64(transcript, 8 * i);
        let v = numbers::le64(out, 8 * i);
        if t != v {
            return Verdict::Different(i);
        }
    }
    Verdict::Same
}

// The transcript with the readings as they are once each encoder CNTR reading is negated; where one differs, with the readings as they
// are. While none does, the two are the same just if each CNTR reading is still: its own negation.
pub fn compare(log: &[u8], start: usize, out: &[u8], transcript: &[u8]) -> Verdict
    requires { Ready log.now start out.now transcript.now }
    ensures { Answer log.now transcript.now (Ok result) }
{
    let mut still = true;
    let mut at = start;
    for j in 0..transcript.len() / 8 {
        // to the record of this reading: by hand, since the next reading goes on where this one stops
        while log[at] != 2 {
            at += 16;
        }
        let t = numbers::le64(transcript, 8 * j);
        let v = numbers::le64(out, 8 * j);
        // a test, since a reading that is negated for nothing costs five instructions
        if is_cntr(log[at + 1], log[at + 3]) {
            let w = negate(v);
            if t != w {
                return plainly(transcript, out);
            }
            still = still & (w == v);
        } else if t != v {
            return plainly(transcript, out);
        }
        at += 16;
    }
    if still {
        Verdict::Both
    } else {
        Verdict::Negated
    }
}
