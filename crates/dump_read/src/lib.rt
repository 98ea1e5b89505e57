// Reads a dump back, and no other text: the pins after all changes at each time at which something
// changed.
#![tactic(auto)]

ghost use Rattle.std.specs.Prelude.{◌≡◌, ◌+◌, ◌<◌, ◌≤◌, length};
ghost use mathlib.Core.List.{[], ◌∷◌, foldl};
ghost use Rattle.std.specs.Result.{result_err};
ghost use Rattle.refused.specs.Number.{number_of};
ghost use Rattle.vcd.specs.Entries.{entries_at, entry_bytes};
ghost use Rattle.vcd.specs.How.{position_of, line_of, lines_of, turn_of, opening, standing, told_before, told_from};
ghost use Rattle.dump_read.specs.Reading.{Answer, count_of};
ghost use Rattle.dump_read.specs.How.{Stored};

use refused::Refusal;
use vcd::{Channel, Line, Reader};

// Where the reader of a text ends, and how many entries there were.
#[derive(Clone, Copy)]
pub struct Scan {
    pub reader: Reader,
    pub count: usize,
}

// ---- entries, 16 bytes each; one that has no room is counted and not stored

fn entry(time: u64, e: usize, p: u8) -> [u8; 16]
    requires { e < 20 }
    ensures { result ≡ entry_bytes (record { time = time; encoder = e; pins = p }) }
{
    let mut x = [0u8; 16];
    numbers::put64(&mut x, 0, time);
    x[8] = (e / 10) as u8;
    x[9] = (e % 10) as u8;
    x[10] = p;
    x
}

// The entry of encoder e, if it has changed.
fn put_entry(time: u64, e: usize, channel: Channel, out: &mut [u8], count: usize) -> usize
    requires { (e < 20) × (count < 4294967296) }
    ensures stored { Stored out.old count (entries_at time e (channel.pins ∷ []) (channel.changed ∷ [])) out.new result }
    ensures upper_bound { result ≤ count + 1 }
{
    if channel.changed != 0 {
        let x = entry(time, e, channel.pins);
        let _place = text::put_word(out, 16 * count, &x);
        count + 1
    } else {
        count
    }
}

fn put_standing(r: Reader, out: &mut [u8], count: usize) -> usize
    requires { count < 2147483648 }
    ensures stored { Stored out.old count (standing (position_of r)) out.new result }
    ensures upper_bound { result ≤ count + 20 }
{
    let mut n = count;
    for e in 0..20 {
        n = put_entry(r.now, e, r.channels[e], out, n);
    }
    n
}

// What a line ends is told: at a time what changed at the time before.
fn put_before(r: Reader, l: Line, out: &mut [u8], count: usize) -> usize
    requires { count < 2147483648 }
    ensures stored { Stored out.old count (told_before (position_of r) l) out.new result }
    ensures upper_bound { result ≤ count + 20 }
{
    match l {
        Line::Time(_) => put_standing(r, out, count),
        _ => count,
    }
}

// ---- the text

// A line is read: what it ends is told, and the reader takes its turn.
fn take_line(s: Scan, line: &[u8], out: &mut [u8]) -> Scan
    requires { s.count < 2147483648 }
    ensures reader_value { position_of result.reader ≡ turn_of (position_of s.reader) (line_of line.now) }
    ensures stored { Stored out.old s.count (told_before (position_of s.reader) (line_of line.now)) out.new result.count }
    ensures count_bound { result.count ≤ s.count + 20 }
{
    let l = vcd_read::read_line(line);
    Scan {
        count: put_before(s.reader, l, out, s.count),
        reader: vcd_turn::next(s.reader, l),
    }
}

fn read_text(text: &[u8], out: &mut [u8]) -> Scan
    requires { length text.now ≤ 25207 }
    ensures reader_value { position_of result.reader ≡ foldl turn_of opening (lines_of text.now) }
    ensures stored { Stored out.old 0 (told_from opening (lines_of text.now)) out.new result.count }
    ensures count_bound { result.count ≤ 504160 }
{
    let mut s = Scan {
        reader: vcd_turn::opening(),
        count: 0,
    };
    let mut start = 0;
    for i in 0..text.len() {
        if text[i] == b'\n' {
            s = take_line(s, &text[start..i], out);
            start = i + 1;
        }
    }
    Scan {
        count: put_standing(s.reader, out, s.count),
        reader: vcd_turn::ended(s.reader, start == text.len()),
    }
}

// The first pass over the text stores nothing, so that a refusal writes nothing.
pub fn dump_read(text: &[u8], out: &mut [u8]) -> Result<usize, Refusal>
    ensures answer { Answer text.now out.old (number_of (result_err result)) (count_of result) out.new }
    ensures count_bound { count_of result ≤ 504160 }
{
    if text.len() > vcd::DUMP_BYTES {
        return Err(Refusal::NoDump);
    }
    let s = read_text(text, &mut []);
    if !vcd_turn::whole(s.reader) {
        return Err(Refusal::NoDump);
    }
    if out.len() / 16 < s.count {
        return Err(Refusal::OutputTooShort);
    }
    Ok(read_text(text, out).count)
}
