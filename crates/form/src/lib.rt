// A form: a text with numbers in its places. # is the next one in decimal, ^ the sign of the next one, of two's complement, and ~ an s unless
// the next one is 1.
#![tactic(auto)]

ghost use Rattle.std.specs.Prelude.{◌≡◌, ◌≤◌};
ghost use Rattle.form.specs.Form.{sign_of, plural_of, part_of, taken_by, form_text};
ghost use Rattle.text.specs.Puts.{Puts};

use text::Text;

#[tactic(auto, unfolding(crate::specs::Form::sign_of))]
fn put_sign(text: &mut Text, n: u64)
    ensures { Puts text.old text.new (sign_of n) }
{
    match n {
        0 => {}
        1..9_223_372_036_854_775_808 => text.byte(b'+'),
        _ => text.byte(b'-'),
    }
}

fn put_plural(text: &mut Text, n: u64)
    ensures { Puts text.old text.new (plural_of n) }
{
    if n == 1 {
        return;
    }
    text.byte(b's');
}

fn put_part(text: &mut Text, b: u8, n: u64)
    ensures { Puts text.old text.new (part_of b n) }
{
    match b {
        b'#' => text.number(n),
        b'^' => put_sign(text, n),
        b'~' => put_plural(text, n),
        _ => text.byte(b),
    }
}

// How many numbers a byte of a form takes.
fn taken(b: u8) -> usize
    ensures { (result ≡ taken_by b) × (result ≤ 1) }
{
    match b {
        b'#' | b'^' | b'~' => 1,
        _ => 0,
    }
}

pub fn put_form(text: &mut Text, form: &[u8], numbers: &[u64])
    ensures { Puts text.old text.new (form_text form.now numbers.now) }
{
    let mut k = 0;
    for &b in form {
        let n = numbers.get(k).copied().unwrap_or(0);
        put_part(text, b, n);
        k += taken(b);
    }
}
