// A reader of dumps line by line: what each line makes of it.
#![tactic(auto)]

ghost use Rattle.std.specs.Prelude.{◌≡◌, cond, ◌&&◌, ◌+◌, ◌<◌, eqb};
ghost use Rattle.vcd.specs.Lines.{place};
ghost use Rattle.vcd.specs.How.{number_of_phase, position_of, pins_of, changed_of, unchanged as unchanged_of, refused as refused_of, follows as follows_of, fixed_turn, var_turn, unknown_turn, time_turn, pin_of, taken as taken_of, pinned as pinned_of, change_turn, turn_of, opening as opening_of, whole as whole_of};
ghost use Rattle.vcd_read.specs.Bounds.{Bounded};

use vcd::{Channel, Line, Mark, NO_WIRE, Phase, Reader, UNKNOWN};

pub fn opening() -> Reader
    ensures { position_of result ≡ opening_of }
{
    Reader {
        phase: Phase::Header(Mark::Timescale),
        awaited: 0,
        now: 0,
        channels: [Channel {
            pins: NO_WIRE,
            changed: 0,
        }; 20],
    }
}

fn refused(r: Reader) -> Reader
    ensures { position_of result ≡ refused_of (position_of r) }
{
    Reader {
        phase: Phase::Refused,
        ..r
    }
}

// Whether a wire may come in the header: just the awaited one where it is odd, else the A of an
// encoder that is not before it.
fn follows(awaited: usize, wire: usize) -> bool
    ensures { result ≡ follows_of awaited wire }
{
    if awaited % 2 == 1 {
        wire == awaited
    } else {
        wire % 2 == 0 && awaited <= wire
    }
}

// What comes after a fixed line.
fn after(mark: Mark) -> Phase
    ensures { number_of_phase result ≡ place mark + 1 }
{
    match mark {
        Mark::Timescale => Phase::Header(Mark::Scope),
        Mark::Scope => Phase::Header(Mark::Upscope),
        Mark::Upscope => Phase::Header(Mark::EndDefinitions),
        Mark::EndDefinitions => Phase::Header(Mark::DumpVars),
        Mark::DumpVars => Phase::Header(Mark::End),
        Mark::End => Phase::FirstTime,
    }
}

fn fixed_turn(r: Reader, mark: Mark) -> Reader
    ensures { position_of result ≡ fixed_turn (position_of r) mark }
{
    if r.phase == Phase::Header(mark) && r.awaited % 2 == 0 {
        Reader {
            phase: after(mark),
            awaited: 0,
            ..r
        }
    } else {
        refused(r)
    }
}

fn var_turn(r: Reader, wire: usize) -> Reader
    requires { wire < 40 }
    ensures { position_of result ≡ var_turn (position_of r) wire }
{
    if r.phase == Phase::Header(Mark::Upscope) && follows(r.awaited, wire) {
        let mut channels = r.channels;
        channels[wire / 2].pins = UNKNOWN;
        Reader {
            awaited: wire + 1,
            channels,
            ..r
        }
    } else {
        refused(r)
    }
}

fn unknown_turn(r: Reader, wire: usize) -> Reader
    requires { wire < 40 }
    ensures { position_of result ≡ unknown_turn (position_of r) wire }
{
    let p = r.channels[wire / 2].pins;
    if r.phase == Phase::Header(Mark::End) && follows(r.awaited, wire) && p == UNKNOWN {
        Reader {
            awaited: wire + 1,
            ..r
        }
    } else {
        refused(r)
    }
}

// The channels at a new time, at which none has changed yet.
fn unchanged(mut channels: [Channel; 20]) -> [Channel; 20]
    ensures pins { pins_of result ≡ pins_of channels }
    ensures changed { changed_of result ≡ unchanged_of }
{
    for c in channels.iter_mut() {
        c.changed = 0;
    }
    channels
}

fn time_turn(r: Reader, t: u64) -> Reader
    ensures { position_of result ≡ time_turn (position_of r) t }
{
    let later = r.phase == Phase::FirstTime || (r.phase == Phase::Changes && r.now < t);
    if later && r.awaited == 0 && t % 25 == 0 {
        Reader {
            phase: Phase::FirstChange,
            awaited: 0,
            now: t,
            channels: unchanged(r.channels),
        }
    } else {
        refused(r)
    }
}

fn pin_of(p: u8, wire: usize) -> u8
    ensures { result ≡ pin_of p wire }
{
    if wire % 2 == 0 { p % 2 } else { p / 2 }
}

// Whether a change to b of a wire is taken whose encoder has the pins p.
fn taken(awaited: usize, p: u8, wire: usize, b: u8) -> bool
    ensures { result ≡ taken_of awaited p wire b }
{
    if awaited != 0 {
        wire == awaited
    } else if p == UNKNOWN {
        wire % 2 == 0
    } else {
        p < UNKNOWN && pin_of(p, wire) != b
    }
}

fn pinned(p: u8, wire: usize, b: u8) -> u8
    requires { b < 2 }
    ensures { result ≡ pinned_of p wire b }
{
    if wire % 2 == 0 {
        2 * (p / 2) + b
    } else {
        p % 2 + 2 * b
    }
}

// The wire that has to come next: B of an encoder whose A has just got its first value.
fn awaits(awaited: usize, p: u8, wire: usize) -> usize
    requires { wire < 40 }
    ensures { result ≡ cond (eqb awaited 0 && eqb p 4) (wire + 1) 0 }
{
    if awaited == 0 && p == UNKNOWN {
        wire + 1
    } else {
        0
    }
}

fn change_turn(r: Reader, wire: usize, b: u8) -> Reader
    requires { (wire < 40) × (b < 2) }
    ensures { position_of result ≡ change_turn (position_of r) wire b }
{
    let e = wire / 2;
    let p = r.channels[e].pins;
    let under_way = matches!(r.phase, Phase::FirstChange | Phase::Changes);
    if under_way && taken(r.awaited, p, wire, b) {
        let mut channels = r.channels;
        channels[e] = Channel {
            pins: pinned(p, wire, b),
            changed: 1,
        };
        Reader {
            phase: Phase::Changes,
            awaited: awaits(r.awaited, p, wire),
            channels,
            ..r
        }
    } else {
        refused(r)
    }
}

#[tactic(auto, unfolding(vcd::specs::How::turn_of))]
pub fn next(r: Reader, l: Line) -> Reader
    requires { Bounded l }
    ensures { position_of result ≡ turn_of (position_of r) l }
{
    match l {
        Line::Fixed(mark) => fixed_turn(r, mark),
        Line::Var(wire) => var_turn(r, wire),
        Line::Unknown(wire) => unknown_turn(r, wire),
        Line::Time(t) => time_turn(r, t),
        Line::Change { wire, bit } => change_turn(r, wire, bit),
        Line::Other => refused(r),
    }
}

// The end of a text that is cut into lines, or of one that has more behind its last newline, which
// is no line.
pub fn ended(r: Reader, cut: bool) -> Reader
    ensures { position_of result ≡ cond cut (position_of r) (refused_of (position_of r)) }
{
    if cut { r } else { refused(r) }
}

pub fn whole(r: Reader) -> bool
    ensures { result ≡ whole_of (position_of r) }
{
    matches!(r.phase, Phase::FirstTime | Phase::Changes) && r.awaited == 0
}
