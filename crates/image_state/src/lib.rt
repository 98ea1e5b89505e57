// Whether bytes are a stream's state: 864 of them, laid out in specs/Image.antt.
#![tactic(auto)]

ghost use Rattle.std.specs.Prelude.{◌≡◌, ℕ, ◌+◌, ◌*◌, ◌^◌, ◌<◌, List, Bool};
ghost use Rattle.codec.specs.How.{ok_word, ok_many};
ghost use Rattle.image_words.specs.How.{is_encoder};
ghost use Rattle.image_pwm.specs.How.{is_registers};
ghost use Rattle.image_state.specs.Image.{size};
ghost use Rattle.image_state.specs.How.{refusal_of, is_refusal, is_head, is_state, Gives};

use edition::Edition;
use image_pwm::{is_registers, is_short};
use image_words::{is_encoder, is_i2c};
use numbers::le64;
use refused::Refusal;

// What the byte of a state says of the record that stopped its stream: one of the refusals that a record can give, or none.
pub fn refusal_of(n: u64) -> Option<Refusal>
    ensures { result ≡ refusal_of n }
{
    match n {
        7 => Some(Refusal::NoSuchRecord),
        8 => Some(Refusal::ValueOutOfRange),
        9 => Some(Refusal::NotRouted),
        10 => Some(Refusal::WrongSelect),
        11 => Some(Refusal::WrongControl),
        16 => Some(Refusal::StopAfterAck),
        18 => Some(Refusal::StepAndDirection),
        _ => None,
    }
}

fn is_refusal(n: u64) -> bool
    ensures { result ≡ is_refusal n }
{
    matches!(n, 0 | 7..=11 | 16 | 18)
}

fn is_head(refused: u64, held: u64, edition: u64) -> bool
    ensures { result ≡ is_head refused held edition }
{
    Edition::known(edition) & (is_refusal(refused) & ((held < 16) & ((refused == 0) | (held == 0))))
}

// Whether a test holds at each of n places, a width apart. All are tested, without a branch: a use is then few instructions.
fn all_at<F: Fn(usize) -> bool>(from: usize, width: usize, n: usize, holds: F) -> bool
    requires callable { (i : ℕ) → i < n → F.pre holds (from + width * i) }
    requires bound { from + width * n < 2 ^ 64 }
    ensures { (ok : List ℕ → ℕ → Bool) (s : List ℕ) → Gives (F.post holds) ok s from width n → result ≡ ok_many width ok n s from }
{
    let mut all = true;
    for i in 0..n {
        all &= holds(from + width * i);
    }
    all
}

pub fn is_state(s: &[u8]) -> bool
    ensures { result ≡ is_state s.now }
{
    if s.len() < 864 {
        return false;
    }
    let head = le64(s, 0);
    let held = (head >> 8) % 256;
    let end = 16 + held as usize;
    // the tests of a PWM channel are three loops: each is then few instructions
    is_head(head % 256, held, head >> 16)
        & all_at(16, 1, 16, |at| (at < end) | (s[at] == 0))
        & all_at(32, 8, 2, |at| le64(s, at) < 1099511627776)
        & all_at(48, 8, 2, |at| is_i2c(le64(s, at)))
        & all_at(64, 8, 20, |at| is_encoder(le64(s, at)))
        & all_at(224, 16, 40, |at| is_registers(le64(s, at)))
        & all_at(224, 16, 40, |at| le64(s, at + 8) >> 24 < 2)
        & all_at(224, 16, 40, |at| is_short(le64(s, at), le64(s, at + 8)))
}
