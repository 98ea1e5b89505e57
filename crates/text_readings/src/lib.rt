// What a replay prints: each reading on its own line, and how it ended. Where a function answers a number, it is the size of the text.
#![tactic(auto)]

ghost use Rattle.std.specs.Prelude.{◌+◌, ◌*◌, ◌≤◌, length};
ghost use Rattle.decimal.specs.Digits.{digits_of};
ghost use Rattle.decimal.specs.Put.{Put};
ghost use Rattle.numbers.specs.Bytes.{le_of};
ghost use Rattle.text.specs.Puts.{Puts};
ghost use Rattle.text.specs.Text.{line, text_of, lines_of, readings_in};

use text::Text;

// Each reading on its own line.
fn put_lines(text: &mut Text, readings: &[u8])
    ensures { Puts text.old text.new (lines_of (readings_in readings.now)) }
{
    for reading in readings.chunks_exact(8) {
        text.line(b"", numbers::le64(reading, 0));
    }
}

pub fn put_readings(out: &mut [u8], readings: &[u8]) -> usize
    ensures { Put out.old 0 (lines_of (readings_in readings.now)) out.new result }
{
    let mut text = Text::new(out);
    put_lines(&mut text, readings);
    text.at
}

// What a replay prints.
pub fn replay_text(out: &mut [u8], readings: &[u8], applied: u64, refused: u64) -> usize
    ensures { Put out.old 0 (text_of (readings_in readings.now) applied refused) out.new result }
{
    let mut text = Text::new(out);
    put_lines(&mut text, readings);
    text.pair(b"applied ", applied, b" refused ", refused);
    text.at
}
