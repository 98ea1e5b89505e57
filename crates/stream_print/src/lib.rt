// What `rvz stream` prints: each reading as soon as its record is there, and how the stream ended. That a stream is ready stands in the
// contracts and is no invariant of its type, as in `live`.
#![tactic(auto)]

ghost use Rattle.std.specs.Prelude.{◌≡◌, ◌≤◌, length, true, is_some, IfOk, OnErr};
ghost use Rattle.outside.specs.Counts.{IsPrefixLen};
ghost use Rattle.decimal.specs.Put.{Put};
ghost use Rattle.live_state.specs.How.{live_of, Good};
ghost use Rattle.printed.specs.Printed.{size_of};
ghost use Rattle.stream_print.specs.Shown.{arrived, shown_of, last_of, no_edition};
ghost use Rattle.stream_print.specs.How.{Ready};

use edition::Edition;
use live_state::Stream;
use printed::Printed;
use refused::Refusal;
use std::io;
use std::io::{Input, Print};
use std::rt::Env;
use text::Text;

// The stream after a chunk, and the size of what is printed of it.
#[derive(Clone, Copy)]
pub struct Shown {
    pub stream: Stream,
    pub size: usize,
}

// What a chunk prints: 257 lines, of at most 21 bytes, fit 5,397.
pub fn chunk_text(text: &mut [u8], s: Stream, bytes: &[u8]) -> Shown
    requires ready { Ready s }
    requires bytes_len_bound { length bytes.now ≤ 4096 }
    ensures stream_value { live_of result.stream ≡ (arrived (live_of s) bytes.now).live }
    ensures same { is_some s.refused ≡ true → result.stream ≡ s }
    ensures put { Put text.old 0 (shown_of (arrived (live_of s) bytes.now)) text.new result.size }
    ensures bytes_len_bound_2 { length (shown_of (arrived (live_of s) bytes.now)) ≤ 5397 }
    ensures ready_2 { Ready result.stream }
{
    let mut out = [0u8; 2056];
    let chunked = live::chunk(s, bytes, &mut out);
    let n = 8 * chunked.readings;
    let stream = chunked.stream;
    Shown {
        stream,
        size: text_readings::put_readings(text, &out[..n]),
    }
}

// The last line.
pub fn end_text(text: &mut [u8], s: Stream) -> usize
    requires { Good s }
    ensures { Put text.old 0 (last_of (live_of s)) text.new result }
{
    let number = live_state::end(s).err().map_or(0, Refusal::number);
    let mut text = Text::new(text);
    text.pair(b"applied ", s.applied, b" refused ", number as u64);
    text.at
}

// The same where the edition is none: nothing is read.
pub fn no_edition_text(text: &mut [u8]) -> usize
    ensures { Put text.old 0 no_edition text.new result }
{
    let number = Refusal::WrongEdition.number();
    let mut text = Text::new(text);
    text.pair(b"applied ", 0, b" refused ", number as u64);
    text.at
}

// A chunk's readings, written at once, or the error of that write.
fn show(rt: &impl Print, s: Stream, bytes: &[u8]) -> io::Result<Stream>
    requires ready { Ready s }
    requires bytes_len_bound { length bytes.now ≤ 4096 }
    ensures result_value { IfOk result (λ r. live_of r ≡ (arrived (live_of s) bytes.now).live) }
    ensures ready_2 { IfOk result (λ r. Ready r) }
{
    let mut text = [0u8; 5397];
    let shown = chunk_text(&mut text, s, bytes);
    let n = shown.size;
    rt.write_all(&text[..n])?;
    Ok(shown.stream)
}

// Chunk after chunk, up to the input's end or to a refused record, whose answer no byte can change. Whatever a read gives is a chunk, and
// what it gives no contract can say. 2^64 reads take longer than any machine lasts.
fn all(rt: &(impl Input + Print), first: Stream) -> io::Result<Stream>
    requires { Ready first }
    ensures { IfOk result (λ r. Ready r) }
{
    let mut s = first;
    for _ in 0..u64::MAX {
        let mut bytes = outside::buffer();
        let n = outside::read_chunk(rt, &mut bytes);
        s = show(rt, s, &bytes[..n])?;
        if (n == 0) | s.refused.is_some() {
            break;
        }
    }
    Ok(s)
}

// By the program's argument EDITION. The readings are written as they come, the last line is left in the text. Where the readings cannot be
// written, that is the answer, and the text is as it was.
pub fn stream_input(rt: &(impl Env + Input + Print), text: &mut [u8]) -> io::Result<Printed>
    ensures prefix_len { IfOk result (λ r. IsPrefixLen (size_of r) text.new) }
    ensures unchanged { OnErr result (text.new ≡ text.old) }
{
    let mut word = outside::buffer();
    let n = outside::arg(rt, 2, &mut word);
    let Some(number) = decimal::read(&word[..n]) else {
        return Ok(Err(text_answers::no_number_text(text, b"EDITION")));
    };
    if !Edition::known(number) {
        return Ok(Ok(no_edition_text(text)));
    }
    let ended = all(rt, live_state::start(number))?;
    Ok(Ok(end_text(text, ended)))
}
