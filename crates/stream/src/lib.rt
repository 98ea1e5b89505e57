// A stream on bytes that the caller lends: the state is loaded, a chunk is taken, and the state is kept again.
#![tactic(auto)]

ghost use Rattle.std.specs.Prelude.{◌≡◌, length, Some, Err};
ghost use Rattle.std.specs.Result.{result_err};
ghost use Rattle.refused.specs.Number.{number_of};
ghost use Rattle.refused.specs.declared.Refusal.TheVariants.{NoState};
ghost use Rattle.fold.specs.Output.{bytes_of, over};
ghost use Rattle.numbers.specs.Bytes.{le_bytes};
ghost use Rattle.live_state.specs.Live.{chunk_of, end_of};
ghost use Rattle.image_state.specs.Image.{image_of};
ghost use Rattle.stream.specs.Stream.{start_of, started_in, Tells, On};

use edition::Edition;
use refused::Refusal;

// What refused the chunk, if anything did, and how many readings were written.
#[derive(Clone, Copy)]
pub struct Told {
    pub refused: Option<Refusal>,
    pub readings: usize,
}

pub fn start(edition: u64, state: &mut [u8]) -> Result<(), Refusal>
    ensures value { number_of (result_err result) ≡ start_of edition (length state.old) }
    ensures state_after { state.new ≡ started_in edition state.old }
{
    if !Edition::known(edition) {
        return Err(Refusal::WrongEdition);
    }
    if state.len() < 864 {
        return Err(Refusal::OutputTooShort);
    }
    image::save(live_state::start(edition), state);
    Ok(())
}

pub fn chunk(state: &mut [u8], bytes: &[u8], out: &mut [u8]) -> Told
    ensures on { On state.old (λ l. Tells (chunk_of l bytes.now (length out.old)) result) (result ≡ record { refused = Some NoState; readings = 0 }) }
    ensures on_2 { On state.old (λ l. state.new ≡ over (image_of (chunk_of l bytes.now (length out.old)).live) state.old) (state.new ≡ state.old) }
    ensures on_3 { On state.old (λ l. out.new ≡ over (bytes_of (le_bytes 8) (chunk_of l bytes.now (length out.old)).readings) out.old) (out.new ≡ out.old) }
{
    if image_state::is_state(state) {
        let c = live::chunk(image::load(state), bytes, out);
        image::save(c.stream, state);
        return Told {
            refused: c.refused,
            readings: c.readings,
        };
    }
    Told {
        refused: Some(Refusal::NoState),
        readings: 0,
    }
}

pub fn end(state: &[u8]) -> Result<(), Refusal>
    ensures { On state.now (λ l. number_of (result_err result) ≡ end_of l) (result ≡ Err NoState) }
{
    if image_state::is_state(state) {
        return image::load_end(state);
    }
    Err(Refusal::NoState)
}

// 0 where no stream stands in the bytes, as C's call answers.
pub fn applied(state: &[u8]) -> u64
    ensures { On state.now (λ l. result ≡ l.applied) (result ≡ 0) }
{
    if image_state::is_state(state) {
        return numbers::le64(state, 8);
    }
    0
}
