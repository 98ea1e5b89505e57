// Numbers of several bytes, least byte first.
#![tactic(auto)]

ghost use Rattle.std.specs.Prelude.{◌≡◌, ◌+◌, ◌<◌, ◌≤◌, ◌^◌, length};
ghost use Rattle.std.proofs.lemmas.List.Edits.{sets};
ghost use Rattle.numbers.specs.Bytes.{le_of, le_bytes};

// The number in N bytes from `at` on.
pub fn le<const N: usize>(s: &[u8], at: usize) -> u64
    requires in_bounds { at + N ≤ length s.now }
    requires fits { N ≤ 8 }
    ensures value { result ≡ le_of N s.now at }
    ensures bound { result < 256 ^ N }
{
    let mut bytes = [0u8; 8];
    bytes[..N].copy_from_slice(&s[at..at + N]);
    u64::from_le_bytes(bytes)
}

// `le` by the widths that a log has, here and for `put`: shorter to read at the many calls.
pub fn le16(s: &[u8], at: usize) -> u64
    requires { at + 2 ≤ length s.now }
    ensures { (result ≡ le_of 2 s.now at) × (result < 65536) }
{
    le::<2>(s, at)
}

pub fn le32(s: &[u8], at: usize) -> u64
    requires { at + 4 ≤ length s.now }
    ensures { (result ≡ le_of 4 s.now at) × (result < 4294967296) }
{
    le::<4>(s, at)
}

pub fn le64(s: &[u8], at: usize) -> u64
    requires { at + 8 ≤ length s.now }
    ensures { result ≡ le_of 8 s.now at }
{
    le::<8>(s, at)
}

// The low N bytes of v, stored from `at` on.
pub fn put<const N: usize>(out: &mut [u8], at: usize, v: u64)
    requires in_bounds { at + N ≤ length out.old }
    requires fits { N ≤ 8 }
    ensures { out.new ≡ sets out.old at (le_bytes N v) }
{
    out[at..at + N].copy_from_slice(&v.to_le_bytes()[..N]);
}

// The low four bytes of v, stored from at on.
pub fn put32(out: &mut [u8], at: usize, v: u64)
    requires { at + 4 ≤ length out.old }
    ensures { out.new ≡ sets out.old at (le_bytes 4 v) }
{
    put::<4>(out, at, v);
}

// The eight bytes of v, stored from at on.
pub fn put64(out: &mut [u8], at: usize, v: u64)
    requires { at + 8 ≤ length out.old }
    ensures { out.new ≡ sets out.old at (le_bytes 8 v) }
{
    put::<8>(out, at, v);
}
