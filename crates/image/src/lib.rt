// A stream's state loaded from the bytes that the caller lends, and saved in them.
#![tactic(auto)]

ghost use Rattle.std.specs.Prelude.{◌≡◌, ℕ, true, List, ◌++◌, ◌+◌, ◌*◌, ◌^◌, ◌<◌, ◌≤◌, length, drop};
ghost use Rattle.std.proofs.lemmas.List.Edits.{sets};
ghost use Rattle.std.specs.Result.{result_err};
ghost use Rattle.numbers.specs.Bytes.{byte};
ghost use Rattle.codec.specs.How.{save_word, save_many, load_many};
ghost use Rattle.refused.specs.Number.{number_of};
ghost use Rattle.live_state.specs.Live.{end_of};
ghost use Rattle.live_state.specs.How.{live_of};
ghost use Rattle.numbers.specs.Bytes.{le_bytes};
ghost use Rattle.image_words.specs.How.{i2c_number, low_number};
ghost use Rattle.image_state.specs.Image.{size, image_of};
ghost use Rattle.image_state.specs.How.{head_number, save_pwm, is_state, load_of, flat_of, Gives, Loads, Saves};

use banks::Flat;
use encoder::Encoder;
use i2c::I2c;
use image_pwm::{pwm_of, registers_number, wave_number};
use image_state::refusal_of;
use image_words::{encoder_number, encoder_of, i2c_number, i2c_of};
use live_state::Stream;
use numbers::{le64, put64};
use pwm::Pwm;
use refused::Refusal;

// ---- the stream in bytes that are a state

// Values in a row, each loaded from its place, a width apart.
fn load_each<T: Copy, F: Fn(usize) -> T>(values: &mut [T], from: usize, width: usize, value: F)
    requires callable { (i : ℕ) → i < length values.old → F.pre value (from + width * i) }
    requires bound { from + width * length values.old < 2 ^ 64 }
    ensures { (load : List ℕ → ℕ → T) (s : List ℕ) → Gives (F.post value) load s from width (length values.old) → values.new ≡ load_many width load (length values.old) s from }
{
    for (i, v) in values.iter_mut().enumerate() {
        *v = value(from + width * i);
    }
}

fn load_flat(s: &[u8]) -> Flat
    requires { size ≤ length s.now }
    ensures { result ≡ flat_of s.now }
{
    let mut flat = Flat {
        selects: [0; 2],
        encoders: [Encoder::fresh(); 20],
        pwms: [Pwm::fresh(); 40],
        i2cs: [I2c::fresh(); 2],
    };
    load_each(&mut flat.selects, 32, 8, |at| le64(s, at));
    load_each(&mut flat.i2cs, 48, 8, |at| i2c_of(le64(s, at)));
    load_each(&mut flat.encoders, 64, 8, |at| encoder_of(le64(s, at)));
    load_each(
        &mut flat.pwms,
        224,
        16,
        |at| pwm_of(le64(s, at), le64(s, at + 8)),
    );
    flat
}

pub fn load(s: &[u8]) -> Stream
    requires { is_state s.now ≡ true }
    ensures { Loads s.now result }
{
    let head = le64(s, 0);
    let mut carried = [0u8; 16];
    carried.copy_from_slice(&s[16..32]);
    Stream {
        edition: head >> 16,
        flat: load_flat(s),
        carried,
        held: ((head >> 8) % 256) as usize,
        applied: le64(s, 8),
        refused: refusal_of(head % 256),
    }
}

// What the end of the stream in the bytes is answered with, by the head alone: nothing else is loaded.
pub fn load_end(s: &[u8]) -> Result<(), Refusal>
    requires { is_state s.now ≡ true }
    ensures { number_of (result_err result) ≡ end_of (load_of s.now) }
{
    let head = le64(s, 0);
    match refusal_of(head % 256) {
        Some(refusal) => Err(refusal),
        None if (head >> 8) % 256 == 0 => Ok(()),
        None => Err(Refusal::WrongDistance),
    }
}

// ---- a stream's image. Each function tells how long its array is, which the proof of `save` would not find again. Each asks for `size` bytes,
// as `save` does, which takes a slice of any length. The encoders and the PWM channels have a loop each: a function for both would take a
// closure that writes, and its contract would speak of the borrow that it writes through.

#[tactic(auto, unfolding(image_state::specs::How::head_number))]
fn head_number(refused: Option<Refusal>, held: usize, edition: u64) -> u64
    requires { (held < 16) × (edition < 5) }
    ensures { result ≡ head_number (number_of refused) held edition }
{
    let number = refused.map_or(0, Refusal::number);
    number as u64 + 256 * (held as u64) + 65536 * edition
}

// SELECT and the I2C of each bank.
fn save_firsts(f: &Flat, out: &mut [u8])
    requires { size ≤ length out.old }
    ensures out_after { out.new ≡ sets out.old 32 (save_many (le_bytes 8) f.now.selects ++ save_many (save_word i2c_number) f.now.i2cs) }
    ensures selects_len { length f.now.selects ≡ 2 }
    ensures i2cs_len { length f.now.i2cs ≡ 2 }
{
    let a = f.i2cs[0];
    let b = f.i2cs[1];
    put64(out, 32, f.selects[0]);
    put64(out, 40, f.selects[1]);
    put64(out, 48, i2c_number(a));
    put64(out, 56, i2c_number(b));
}

fn save_encoders(encoders: &[Encoder; 20], out: &mut [u8])
    requires { size ≤ length out.old }
    ensures out_after { out.new ≡ sets out.old 64 (save_many (save_word low_number) encoders.now) }
    ensures encoders_len { length encoders.now ≡ 20 }
{
    for i in 0..20 {
        put64(out, 64 + 8 * i, encoder_number(encoders[i]));
    }
}

fn put_pwm(p: Pwm, at: usize, out: &mut [u8])
    requires { at + 16 ≤ length out.old }
    ensures { out.new ≡ sets out.old at (save_pwm p) }
{
    let g = p.registers;
    let w = p.wave;
    put64(out, at, registers_number(g));
    put64(out, at + 8, wave_number(w));
}

fn save_pwms(pwms: &[Pwm; 40], out: &mut [u8])
    requires { size ≤ length out.old }
    ensures out_after { out.new ≡ sets out.old 224 (save_many save_pwm pwms.now) }
    ensures pwms_len { length pwms.now ≡ 40 }
{
    for i in 0..40 {
        put_pwm(pwms[i], 224 + 16 * i, out);
    }
}

pub fn save(x: Stream, out: &mut [u8])
    requires size_in_bounds { size ≤ length out.old }
    requires saves { Saves x }
    ensures { out.new ≡ image_of (live_of x) ++ drop size out.old }
{
    put64(out, 0, head_number(x.refused, x.held, x.edition));
    put64(out, 8, x.applied);
    out[16..32].copy_from_slice(&x.carried);
    save_firsts(&x.flat, out);
    save_encoders(&x.flat.encoders, out);
    save_pwms(&x.flat.pwms, out);
}
