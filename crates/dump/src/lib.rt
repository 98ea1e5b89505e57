// A log's pins as a value change dump: docs/WAVEFORM.md.
#![tactic(auto)]

ghost use Rattle.std.specs.Prelude.{◌≡◌, false, ◌≤◌, length};
ghost use Rattle.decimal.specs.Put.{Put};
ghost use Rattle.vcd.specs.Lines.{text_of};
ghost use Rattle.vcd.specs.Dump.{start_of, body_from};
ghost use Rattle.made.specs.Made.{made_of, output_of};
ghost use Rattle.made.specs.How.{handed_of, handed_in};
ghost use Rattle.dump.specs.Dump.{seen_of, dump_text};
ghost use Rattle.dump.specs.How.{steps_in, text_in, Ready};

use made::Failure;
use vcd::Step;

// ---- the records

// What a record says about time and pins. The dump sees a record by this function alone.
#[tactic(auto, unfolding(crate::specs::Dump::seen_of))]
fn seen(bytes: &[u8]) -> Step
    requires { 16 ≤ length bytes.now }
    ensures { result ≡ seen_of bytes.now }
{
    match bytes[0] {
        3 => Step::Pins {
            encoder: 10 * usize::from(bytes[4]) + usize::from(bytes[2]),
            value: numbers::le64(bytes, 8),
        },
        4 => Step::Wait(numbers::le64(bytes, 8)),
        _ => Step::Wait(0),
    }
}

// The encoders that have a pins record. By places, here and below, since `chunks_exact` takes two
// instructions a record more, and the dump has a bar of speed.
fn present(records: &[u8]) -> [u8; 20]
    requires { Ready records.now }
    ensures { result ≡ start_of (steps_in records.now) }
{
    let mut pins = [vcd::NO_WIRE; 20];
    for i in 0..records.len() / 16 {
        if let Step::Pins { encoder, .. } = seen(&records[16 * i..16 * i + 16]) {
            pins[encoder] = vcd::UNKNOWN;
        }
    }
    pins
}

// The changes, behind the header.
fn body(records: &[u8], unknown: [u8; 20], out: &mut [u8], from: usize) -> usize
    requires ready { Ready records.now }
    requires unknown_value { unknown ≡ start_of (steps_in records.now) }
    ensures { Put out.old from (text_of (body_from false 0 unknown (steps_in records.now))) out.new result }
{
    let mut pins = unknown;
    let mut time: u64 = 0;
    let mut told = false;
    let mut at = from;
    for i in 0..records.len() / 16 {
        match seen(&records[16 * i..16 * i + 16]) {
            Step::Wait(t) => {
                told &= t == 0;
                time += 25 * t;
            }
            Step::Pins { encoder, value } => {
                let p = pins[encoder];
                let v = value as u8;
                at = vcd_write::put_changes(out, at, told, time, encoder, p, v);
                told |= p != v;
                pins[encoder] = v;
            }
        }
    }
    at
}

fn write(records: &[u8], out: &mut [u8]) -> usize
    requires { Ready records.now }
    ensures { Put out.old 0 (text_in records.now) out.new result }
{
    let pins = present(records);
    let at = vcd_header::header(out, pins);
    body(records, pins, out, at)
}

// Where every dump has room it is written in place, else into a buffer of our own first, so that a
// refusal writes nothing.
fn write_all(records: &[u8], out: &mut [u8]) -> Result<usize, Failure>
    requires { Ready records.now }
    ensures value { result ≡ handed_of (text_in records.now) (length out.old) }
    ensures out_after { out.new ≡ handed_in (text_in records.now) out.old }
{
    if vcd::DUMP_BYTES <= out.len() {
        return Ok(write(records, out));
    }
    let mut own = [0u8; vcd::DUMP_BYTES];
    let size = write(records, &mut own);
    made::hand_out(&own[..size], out)
}

pub fn dump(log: &[u8], out: &mut [u8]) -> Result<usize, Failure>
    ensures value { result ≡ made_of dump_text log.now (length out.old) }
    ensures out_after { out.new ≡ output_of dump_text log.now out.old }
{
    let trailer = made::source_of(log)?;
    let end = trailer.start + 16 * trailer.count;
    write_all(&log[trailer.start..end], out)
}
