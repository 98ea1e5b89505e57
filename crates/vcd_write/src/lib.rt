// The changes of a dump, put into a lent slice. Every function answers the place after what it put.
#![tactic(auto)]

ghost use Rattle.std.specs.Prelude.{cond, [], ◌∷◌, ◌+◌, ◌<◌};
ghost use Rattle.decimal.specs.Put.{Put};
ghost use Rattle.vcd.specs.declared.Line.TheVariants.{Time, Change};
ghost use Rattle.vcd.specs.Lines.{code_of, text_of};
ghost use Rattle.vcd.specs.Dump.{changes_of, timed};

// A value and a wire's letter.
pub fn put_value(out: &mut [u8], at: usize, value: u8, wire: usize) -> usize
    requires { wire < 40 }
    ensures { Put out.old at (value ∷ code_of wire ∷ 10 ∷ []) out.new result }
{
    let letter = vcd::code(wire);
    let first = decimal::put_byte(out, at, value);
    let second = decimal::put_byte(out, first, letter);
    decimal::put_byte(out, second, b'\n')
}

fn put_time(out: &mut [u8], at: usize, time: u64) -> usize
    ensures { Put out.old at (text_of (Time time ∷ [])) out.new result }
{
    let first = decimal::put_byte(out, at, b'#');
    let end = decimal::put(out, first, time);
    decimal::put_byte(out, end, b'\n')
}

// The time, unless it is told already.
fn put_stamp(out: &mut [u8], at: usize, told: bool, time: u64) -> usize
    ensures { Put out.old at (text_of (cond told [] (Time time ∷ []))) out.new result }
{
    if told { at } else { put_time(out, at, time) }
}

// A wire's new value, unless it has it already.
fn put_change(out: &mut [u8], at: usize, same: bool, wire: usize, bit: u8) -> usize
    requires { (wire < 40) × (bit < 2) }
    ensures { Put out.old at (text_of (cond same [] (Change wire bit ∷ []))) out.new result }
{
    if same {
        at
    } else {
        put_value(out, at, b'0' + bit, wire)
    }
}

// The pins of an encoder were p and are v.
pub fn put_changes(
    out: &mut [u8],
    at: usize,
    told: bool,
    time: u64,
    encoder: usize,
    p: u8,
    v: u8,
) -> usize
    requires { (encoder < 20) × (p < 5) × (v < 4) }
    ensures { Put out.old at (text_of (timed told time (changes_of encoder p v))) out.new result }
{
    if p == v {
        return at;
    }
    let known = p < vcd::UNKNOWN;
    let a = put_stamp(out, at, told, time);
    let b = put_change(out, a, known & (p % 2 == v % 2), 2 * encoder, v % 2);
    put_change(out, b, known & (p / 2 == v / 2), 2 * encoder + 1, v / 2)
}
