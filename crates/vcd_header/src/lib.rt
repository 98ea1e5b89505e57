// The header of a dump, put into a lent slice: a wire for each pin of each encoder that has pins.
// Every function answers the place after what it put.
#![tactic(auto)]

ghost use Rattle.std.specs.Prelude.{◌≡◌, ℕ, [], ◌∷◌, ◌<◌};
ghost use Rattle.decimal.specs.Put.{Put};
ghost use Rattle.vcd.specs.declared.Line.{Line};
ghost use Rattle.vcd.specs.Lines.{text_of};
ghost use Rattle.vcd.specs.Dump.{wires_from, header_of};
ghost use Rattle.vcd_header.specs.How.{NamesWire};

use vcd::Line;

// A wire's line in the declarations, or among the unknown values.
fn put_line(out: &mut [u8], at: usize, line: Line) -> usize
    requires { NamesWire line }
    ensures { Put out.old at (text_of (line ∷ [])) out.new result }
{
    match line {
        Line::Var(wire) => {
            let end = text::put_word(out, at, &vcd::var_line(wire));
            decimal::put_byte(out, end, b'\n')
        }
        Line::Unknown(wire) => vcd_write::put_value(out, at, b'x', wire),
        // No other line names a wire alone.
        _ => at,
    }
}

// The two lines of each encoder that has pins.
fn put_wires<F: Fn(usize) -> Line>(out: &mut [u8], at: usize, pins: [u8; 20], line: F) -> usize
    requires callable { F.IsAlwaysCallable line }
    requires wires { (w : ℕ) (l : Line) → w < 40 → F.post line w l → NamesWire l }
    ensures { (of : ℕ → Line) → ((w : ℕ) (l : Line) → w < 40 → F.post line w l → l ≡ of w) → Put out.old at (text_of (wires_from of 0 pins)) out.new result }
{
    let mut end = at;
    for e in 0..20 {
        if pins[e] != vcd::NO_WIRE {
            end = put_line(out, end, line(2 * e));
            end = put_line(out, end, line(2 * e + 1));
        }
    }
    end
}

pub fn header(out: &mut [u8], pins: [u8; 20]) -> usize
    ensures { Put out.old 0 (text_of (header_of pins pins)) out.new result }
{
    let a = text::put_word(out, 0, b"$timescale 1 ns $end\n$scope module pins $end\n");
    let b = put_wires(out, a, pins, Line::Var);
    let c = text::put_word(out, b, b"$upscope $end\n$enddefinitions $end\n$dumpvars\n");
    let d = put_wires(out, c, pins, Line::Unknown);
    text::put_word(out, d, b"$end\n")
}
