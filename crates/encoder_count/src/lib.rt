// The count of an encoder: a 32-bit signed number that wraps, its bit pattern, and its steps.
#![tactic(auto)]

ghost use Rattle.std.specs.Prelude.{◌≡◌, pos, negsuc, ◌+ℤ◌, if◌then◌else◌};
ghost use Rattle.encoder_count.specs.Count.{wrap, pattern, signed};

pub fn bit_pattern(at: i32) -> u32
    ensures { result ≡ pattern at }
{
    at.cast_unsigned()
}

// The count that a bit pattern stands for.
pub fn count_of(b: u32) -> i32
    ensures { result ≡ signed b }
{
    b.cast_signed()
}

// One step, forward or back.
pub fn wrapping_step(at: i32, back: bool) -> i32
    ensures { result ≡ wrap (at +ℤ (if back then negsuc 0 else pos 1)) }
{
    at.wrapping_add(if back { -1 } else { 1 })
}

// RST 1 sets the count to 0.
pub fn kept_count(rst: bool, at: i32) -> i32
    ensures { result ≡ (if rst then pos 0 else at) }
{
    if rst { 0 } else { at }
}
