// The value change dump of docs/WAVEFORM.md: its lines, and the bytes of the ones that name a wire.
// Wire 2e is pin A of encoder e and 2e + 1 its pin B; encoder e is encoder e % 10 of bank e / 10.
#![tactic(auto)]

ghost use Rattle.std.specs.Prelude.{◌≡◌, ◌<◌};
ghost use Rattle.vcd.specs.Lines.{code_of, var_of};

// No dump is longer.
pub const DUMP_BYTES: usize = 25_207;

// An encoder's pins are a number: 0 to 3 their value, 4 unknown, 5 no wire. A number, since
// `body_from` and `entries_from`, on which the theorem AllShown stands, compare it with the one
// before.
pub const UNKNOWN: u8 = 4;

pub const NO_WIRE: u8 = 5;

// What a record says about time and pins: ticks pass, or the pins of an encoder have a value, bit 0
// its A and bit 1 its B.
#[derive(Clone, Copy)]
pub enum Step {
    Wait(u64),
    Pins { encoder: usize, value: u64 },
}

// One of the six fixed lines of a header, in their order.
#[derive(Clone, Copy, PartialEq, Eq)]
pub enum Mark {
    Timescale,
    Scope,
    Upscope,
    EndDefinitions,
    DumpVars,
    End,
}

// A line: a fixed one, a wire's declaration, its unknown value, a time in ns, a wire's new value,
// or none of these. `Other` and no `None`, since a reader takes its turn at it as at every line,
// and refuses. Wires are numbers below 40 and no type, since `dump_of` counts them.
#[derive(Clone, Copy)]
pub enum Line {
    Fixed(Mark),
    Var(usize),
    Unknown(usize),
    Time(u64),
    Change { wire: usize, bit: u8 },
    Other,
}

// What a reader awaits. Whoever calls may give any number of a phase: those above the ones that there
// are, which no reader reaches, are one case, at which every line is refused.
#[derive(Clone, Copy, PartialEq, Eq)]
pub enum Phase {
    // That fixed line of the header; before Upscope and End the wires' lines.
    Header(Mark),
    // The first time, or the end.
    FirstTime,
    // The first change at a time.
    FirstChange,
    // Another change, a later time or the end.
    Changes,
    // Nothing more: it has refused.
    Refused,
    Other(u8),
}

// What a reader knows of an encoder: its pins, and whether they changed at this time: 0 if not. A byte,
// since whoever calls may give any.
#[derive(Clone, Copy)]
pub struct Channel {
    pub pins: u8,
    pub changed: u8,
}

// Where a reader stands: its phase; the wire that has to come next, or where it is even the least
// that may, so that 0 is any and no `None`; the time; and each encoder.
#[derive(Clone, Copy)]
pub struct Reader {
    pub phase: Phase,
    pub awaited: usize,
    pub now: u64,
    pub channels: [Channel; 20],
}

// The wire's letter.
pub fn code(wire: usize) -> u8
    requires { wire < 40 }
    ensures { result ≡ code_of wire }
{
    (65 + wire % 20 + 32 * (wire / 20)) as u8
}

// The wire's declaration, without its newline.
#[tactic(auto, unfolding(crate::specs::Lines::var_of))]
pub fn var_line(wire: usize) -> [u8; 35]
    requires { wire < 40 }
    ensures { result ≡ var_of wire }
{
    let mut line = *b"$var wire 1 A bank0_encoder0_A $end";
    line[12] = code(wire);
    line[18] = b'0' + (wire / 20) as u8;
    line[27] = b'0' + (wire / 2 % 10) as u8;
    line[29] = b'A' + (wire % 2) as u8;
    line
}
