// Numbers in decimal, read as a program's arguments are and put among the bytes that it prints.
#![tactic(auto)]

ghost use Rattle.std.specs.Prelude.{◌≡◌, [], ◌∷◌, ◌+◌, ◌<◌, true, false, MatchOption};
ghost use Rattle.decimal.specs.Decimal.{is_digit, decimal_of};
ghost use Rattle.decimal.specs.Digits.{digits_of};
ghost use Rattle.decimal.specs.Put.{Put};

// The digit that a byte is.
fn digit(b: u8) -> Option<u64>
    ensures { MatchOption result (is_digit b ≡ false) (λ d. (is_digit b ≡ true) × (b ≡ 48 + d) × (d < 10)) }
{
    match b {
        b'0'..=b'9' => Some(u64::from(b - b'0')),
        _ => None,
    }
}

// The number that `text` says: one digit or more and nothing else, below 2^64.
pub fn read(text: &[u8]) -> Option<u64>
    ensures { result ≡ decimal_of text.now }
{
    if text.is_empty() {
        return None;
    }
    let mut value: u64 = 0;
    for &b in text {
        let digit = digit(b)?;
        value = value.checked_mul(10)?.checked_add(digit)?;
    }
    Some(value)
}

// One byte, where there is room for it.
pub fn put_byte(out: &mut [u8], at: usize, b: u8) -> usize
    ensures { Put out.old at (b ∷ []) out.new result }
{
    if out.len() <= at {
        return at;
    }
    out[at] = b;
    at + 1
}

fn ascii(digit: u64) -> u8
    requires { digit < 10 }
    ensures { result ≡ 48 + digit }
{
    (48 + digit) as u8
}

// The digits of n. By hand: what std's `write!` puts into a lent slice, and how much of it where there is no room, no contract of std says.
pub fn put(out: &mut [u8], at: usize, n: u64) -> usize
    ensures { Put out.old at (digits_of n) out.new result }
{
    if n < 10 {
        return put_byte(out, at, ascii(n));
    }
    let end = put(out, at, n / 10);
    put_byte(out, end, ascii(n % 10))
}
