// STAT as a number: each rule is a few operations on its six bits.
#![tactic(auto)]

ghost use Rattle.std.specs.Prelude.{◌≡◌, cond};
ghost use Rattle.bits.specs.Bits.{bit, rises};
ghost use Rattle.encoder_count.specs.Count.{pattern};
ghost use Rattle.encoder_stat.specs.Stat.{cleared, marked, erred};

// The count before a step that passes the unsigned border, and before one that passes the signed border.
fn before_unsigned(back: bool) -> i32
    ensures { pattern result ≡ cond back 0 4294967295 }
{
    if back { 0 } else { -1 }
}

fn before_signed(back: bool) -> i32
    ensures { pattern result ≡ cond back 2147483648 2147483647 }
{
    if back { i32::MIN } else { i32::MAX }
}

// A step from a count: DIR; UOVR or SOVR, and UOERR or SOERR where the first is set already.
pub fn marked(at: i32, back: bool, stat: u32) -> u32
    ensures { result ≡ marked back (pattern at) stat }
{
    let s = stat % 64;
    // DIR anew on each way: shared, it costs an instruction or two at every step
    if at == before_unsigned(back) {
        s / 2 * 2 | (back as u32) | 4 | (s / 4 % 2 * 16)
    } else if at == before_signed(back) {
        s / 2 * 2 | (back as u32) | 8 | (s / 8 % 2 * 32)
    } else {
        s / 2 * 2 | (back as u32)
    }
}

pub fn erred(stat: u32) -> u32
    ensures { result ≡ erred stat }
{
    let s = stat % 64;
    s | 2
}

fn cleared(error: bool, overflow: bool, stat: u32) -> u32
    ensures { result ≡ cleared error overflow stat }
{
    let s = stat % 64;
    match (error, overflow) {
        (true, true) => s % 2,
        (true, false) => s & 61,
        (false, true) => s % 4,
        (false, false) => s,
    }
}

// A write of v to CNFG, which was c: CERR and COVR.
pub fn cleared_by(c: u32, v: u32, stat: u32) -> u32
    ensures { result ≡ cleared (rises (bit 3 c) (bit 3 v)) (rises (bit 4 c) (bit 4 v)) stat }
{
    cleared(
        !(c / 8 % 2 == 1) & (v / 8 % 2 == 1),
        !(c / 16 % 2 == 1) & (v / 16 % 2 == 1),
        stat,
    )
}
