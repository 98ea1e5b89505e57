// One line of a dump, read.
#![tactic(auto)]

ghost use Rattle.std.specs.Prelude.{◌≡◌, ◌≤◌, ◌<◌, length, drop, slice_index, IfSome};
ghost use Rattle.decimal.specs.Decimal.{decimal_of};
ghost use Rattle.vcd.specs.How.{wire_of, var_with, head_of, number_of, time_of, value_of, change_in, line_of};
ghost use Rattle.vcd_read.specs.Bounds.{Bounded};

use vcd::{Line, Mark};

// The wire of a letter.
fn wire_of(letter: u8) -> Option<usize>
    ensures value { result ≡ wire_of letter }
    ensures bounded { IfSome result (λ w. w < 40) }
{
    match letter {
        b'A'..=b'T' => Some(usize::from(letter - 65)),
        b'a'..=b't' => Some(usize::from(letter - 77)),
        _ => None,
    }
}

// A wire's declaration, whose letter is byte 12.
fn declaration(s: &[u8]) -> Line
    ensures value { result ≡ var_with s.now (wire_of (slice_index s.now 12)) }
    ensures bounded { Bounded result }
{
    match s.get(12).and_then(|letter| wire_of(*letter)) {
        Some(wire) if s == vcd::var_line(wire).as_slice() => Line::Var(wire),
        _ => Line::Other,
    }
}

// A line that begins with `$`.
#[tactic(auto, unfolding(vcd::specs::How::head_of, vcd::specs::Lines::fixed_lines))]
fn head(s: &[u8]) -> Line
    ensures value { result ≡ head_of s.now }
    ensures bounded { Bounded result }
{
    if s == b"$timescale 1 ns $end".as_slice() {
        Line::Fixed(Mark::Timescale)
    } else if s == b"$scope module pins $end".as_slice() {
        Line::Fixed(Mark::Scope)
    } else if s == b"$upscope $end".as_slice() {
        Line::Fixed(Mark::Upscope)
    } else if s == b"$enddefinitions $end".as_slice() {
        Line::Fixed(Mark::EndDefinitions)
    } else if s == b"$dumpvars".as_slice() {
        Line::Fixed(Mark::DumpVars)
    } else if s == b"$end".as_slice() {
        Line::Fixed(Mark::End)
    } else {
        declaration(s)
    }
}

// The number behind the first byte.
fn number(s: &[u8]) -> Line
    requires { 1 ≤ length s.now }
    ensures value { result ≡ number_of (decimal_of (drop 1 s.now)) }
    ensures bounded { Bounded result }
{
    match decimal::read(&s[1..]) {
        Some(t) => Line::Time(t),
        None => Line::Other,
    }
}

// A line that begins with `#`.
#[tactic(auto, unfolding(vcd::specs::How::time_of))]
fn time(s: &[u8]) -> Line
    requires { 1 ≤ length s.now }
    ensures value { result ≡ time_of s.now }
    ensures bounded { Bounded result }
{
    if s.len() > 2 && s[1] == b'0' {
        return Line::Other;
    }
    number(s)
}

fn value(b: u8, wire: Option<usize>) -> Line
    requires { IfSome wire (λ w. w < 40) }
    ensures value { result ≡ value_of b wire }
    ensures bounded { Bounded result }
{
    match (b, wire) {
        (b'x', Some(wire)) => Line::Unknown(wire),
        (b'0', Some(wire)) => Line::Change { wire, bit: 0 },
        (b'1', Some(wire)) => Line::Change { wire, bit: 1 },
        _ => Line::Other,
    }
}

// What a line says, without its newline.
#[tactic(auto, unfolding(vcd::specs::How::line_of, vcd::specs::How::change_in))]
pub fn read_line(s: &[u8]) -> Line
    ensures value { result ≡ line_of s.now }
    ensures bounded { Bounded result }
{
    match s {
        [b'#', ..] => time(s),
        [b'$', ..] => head(s),
        [v, letter] => value(*v, wire_of(*letter)),
        _ => Line::Other,
    }
}
