// The calls on logs and streams. Each answer is one number: the refusal in the low byte, 0 if none, and above it how many records were applied, how many
// bytes were written, or how many stretches, entries or readings there are.
ghost use Rattle.std.specs.Prelude.{◌/◌, ◌%◌, ◌^◌, ◌<◌, ◌≡◌, length};
ghost use Rattle.refused.specs.Number.{number_of};
ghost use Rattle.fold.specs.Output.{refusal_of, bytes_of, over};
ghost use Rattle.numbers.specs.Bytes.{le_bytes};
ghost use Rattle.walk.specs.Turn.{written};
ghost use Rattle.replay.specs.Replay.{replay_of};
ghost use Rattle.made.specs.Made.{made_of, number_in, size_in, size_or_index, output_of as made_output};
ghost use Rattle.dump.specs.Dump.{dump_text};
ghost use Rattle.dump_read.specs.Reading.{Answer};
ghost use Rattle.shrink.specs.Shrink.{smaller_of};
ghost use Rattle.sign.specs.Sign.{sign_of, sign_output};
ghost use Rattle.writer.specs.Writer.{written_of, output_of as write_output};
ghost use Rattle.live_state.specs.Live.{chunk_of, end_of};
ghost use Rattle.image_state.specs.Image.{image_of};
ghost use Rattle.stream.specs.Stream.{start_of, started_in, On};
ghost use Rattle.words.specs.Word.{Word};

use made::Failure;
use words::word;

// Bits 8 up: how many records were applied, also when one was refused.
#[unsafe(no_mangle)]
pub extern "C" fn rvz_replay(log: &[u8], out: &mut [u8]) -> u64
    ensures word { Word (number_of (refusal_of (replay_of log.now (length out.old)).course)) (replay_of log.now (length out.old)).applied result }
    ensures out_after { out.new ≡ written (replay_of log.now (length out.old)) out.old }
{
    let s = replay::replay(log, out);
    word(s.refused, s.applied)
}

// A size and, where nothing is made, the refusal and 0.
fn made_word(made: Result<usize, Failure>) -> u64
    requires { size_in made < 2 ^ 56 }
    ensures { Word (number_in made) (size_in made) result }
{
    match made {
        Ok(size) => word(None, size),
        Err(failure) => word(Some(failure.refusal), 0),
    }
}

// The length of the text.
#[unsafe(no_mangle)]
pub extern "C" fn rvz_dump(log: &[u8], out: &mut [u8]) -> u64
    ensures word { Word (number_in (made_of dump_text log.now (length out.old))) (size_in (made_of dump_text log.now (length out.old))) result }
    ensures out_after { out.new ≡ made_output dump_text log.now out.old }
{
    made_word(dump::dump(log, out))
}

// How many entries.
#[unsafe(no_mangle)]
pub extern "C" fn rvz_dump_read(text: &[u8], out: &mut [u8]) -> u64
    ensures { Answer text.now out.old (result % 2 ^ 8) (result / 2 ^ 8) out.new }
{
    match dump_read::dump_read(text, out) {
        Ok(count) => word(None, count),
        Err(refusal) => word(Some(refusal), 0),
    }
}

// The length of the smaller log.
#[unsafe(no_mangle)]
pub extern "C" fn rvz_shrink(log: &[u8], out: &mut [u8]) -> u64
    ensures word { Word (number_in (made_of smaller_of log.now (length out.old))) (size_in (made_of smaller_of log.now (length out.old))) result }
    ensures out_after { out.new ≡ made_output smaller_of log.now out.old }
{
    made_word(shrink::shrink(log, out))
}

// How many stretches are listed, also when a record is refused.
#[unsafe(no_mangle)]
pub extern "C" fn rvz_sign(log: &[u8], out: &mut [u8]) -> u64
    ensures word { Word (number_of (sign_of log.now (length out.old)).refused) (length (sign_of log.now (length out.old)).entries) result }
    ensures out_after { out.new ≡ sign_output log.now out.old }
{
    let s = sign::sign(log, out);
    word(s.refused, s.count)
}

// The length of the log or, where a record is refused, its index. 56 bits have room for each index in less than 2^60 bytes of records.
#[unsafe(no_mangle)]
pub extern "C" fn rvz_write(edition: u64, notes: &[u8], records: &[u8], out: &mut [u8]) -> u64
    ensures word { Word (number_in (written_of edition notes.now records.now (length out.old))) (size_or_index (written_of edition notes.now records.now (length out.old)) % 2 ^ 56) result }
    ensures out_after { out.new ≡ write_output edition notes.now records.now out.old }
{
    match writer::write(edition, notes, records, out) {
        Ok(size) => word(None, size),
        Err(failure) => word(
            Some(failure.refusal),
            failure.index % 72_057_594_037_927_936,
        ),
    }
}

// ---- streams

#[unsafe(no_mangle)]
pub extern "C" fn rvz_stream_start(edition: u64, state: &mut [u8]) -> u64
    ensures word { Word (start_of edition (length state.old)) 0 result }
    ensures state_after { state.new ≡ started_in edition state.old }
{
    word(stream::start(edition, state).err(), 0)
}

// How many readings this chunk wrote, of which 56 bits have room for those of less than 2^60 bytes.
#[unsafe(no_mangle)]
pub extern "C" fn rvz_stream_chunk(state: &mut [u8], chunk: &[u8], out: &mut [u8]) -> u64
    ensures on { On state.old (λ l. Word (chunk_of l chunk.now (length out.old)).refused (length (chunk_of l chunk.now (length out.old)).readings % 2 ^ 56) result) (Word 19 0 result) }
    ensures on_2 { On state.old (λ l. state.new ≡ over (image_of (chunk_of l chunk.now (length out.old)).live) state.old) (state.new ≡ state.old) }
    ensures on_3 { On state.old (λ l. out.new ≡ over (bytes_of (le_bytes 8) (chunk_of l chunk.now (length out.old)).readings) out.old) (out.new ≡ out.old) }
{
    let t = stream::chunk(state, chunk, out);
    word(t.refused, t.readings % 72_057_594_037_927_936)
}

#[unsafe(no_mangle)]
pub extern "C" fn rvz_stream_end(state: &[u8]) -> u64
    ensures { On state.now (λ l. Word (end_of l) 0 result) (Word 19 0 result) }
{
    word(stream::end(state).err(), 0)
}

// The applied number itself, with no refusal in it.
#[unsafe(no_mangle)]
pub extern "C" fn rvz_stream_applied(state: &[u8]) -> u64
    ensures { On state.now (λ l. result ≡ l.applied) (result ≡ 0) }
{
    stream::applied(state)
}
