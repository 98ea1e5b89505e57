// What `rvz sign` prints: each stretch that `rvz_sign` finds on a line of words, then what the log's replay says. The text is built in one
// buffer and written at once.
#![tactic(auto)]

ghost use Rattle.std.specs.Prelude.{◌≡◌, ◌<◌, ◌≤◌, length, unsigned_abs};
ghost use Rattle.outside.specs.Counts.{IsPrefixLen};
ghost use Rattle.decimal.specs.Put.{Put};
ghost use Rattle.refused.specs.Number.{number_of};
ghost use Rattle.text.specs.Puts.{Puts};
ghost use Rattle.text.specs.Text.{line};
ghost use Rattle.sign_print.specs.Said.{stretches_text, end_text, sign_text};
ghost use Rattle.sign_print.specs.How.{whole_of, numbered_text, numbers_of, spelt, spelt_at, There, Entries};

use refused::Refusal;
use std::io::Input;
use text::Text;

// The four numbers of an entry: bank, encoder, verdict and first record; last record and how many pins; steps; double changes.
#[derive(Clone, Copy)]
struct Numbers {
    names: u64,
    span: u64,
    steps: u64,
    doubles: u64,
}

// The size of a two's complement number.
#[tactic(auto, using(crate::proofs::Words::whole_is))]
fn size(n: u64) -> u64
    ensures { result ≡ unsigned_abs (whole_of n) }
{
    n.cast_signed().unsigned_abs()
}

// ---- a stretch

// The words of a verdict by its number, since an entry's byte holds a number: 0 open, by how many
// steps it is short of more than 2d; 1 forward, 2 backward, 3 still.
fn put_verdict(text: &mut Text, verdict: u64, size: u64, doubles: u64)
    requires { doubles < 4096 }
    ensures { Puts text.old text.new (line (numbered_text verdict size doubles)) }
{
    match verdict {
        1 => text.word(b": forward\n"),
        2 => text.word(b": backward\n"),
        3 => text.word(b": still\n"),
        _ => {
            let short = (2 * doubles + 1).saturating_sub(size);
            form::put_form(
                text,
                b": open, # step~ short of a direction\n",
                &[short, short],
            );
        }
    }
}

fn line_numbers(x: Numbers) -> [u64; 15]
    requires { x.doubles < 4096 }
    ensures { result ≡ numbers_of x.names x.span x.steps x.doubles }
{
    let pins = x.span / 4294967296;
    let moved = size(x.steps);
    let least = x.steps.wrapping_sub(2 * x.doubles);
    let most = x.steps.wrapping_add(2 * x.doubles);
    [
        x.names % 256,
        x.names / 256 % 256,
        x.names / 4294967296,
        x.span % 4294967296,
        pins,
        pins,
        x.steps,
        moved,
        moved,
        x.doubles,
        x.doubles,
        least,
        size(least),
        most,
        size(most),
    ]
}

// A stretch's line.
fn put_stretch(text: &mut Text, x: Numbers)
    requires { x.doubles < 4096 }
    ensures { Puts text.old text.new (spelt x.names x.span x.steps x.doubles) }
{
    let numbers = line_numbers(x);
    form::put_form(
        text,
        b"bank # encoder #: records # to #, # pin~, ^# step~, # double change~, travel ^# to ^#",
        &numbers,
    );
    put_verdict(text, x.names / 65536 % 4, size(x.steps), x.doubles);
}

// The line of the entry at a place.
fn put_entry(text: &mut Text, entries: &[u8], from: usize)
    requires { There entries.now from }
    ensures { Puts text.old text.new (spelt_at entries.now from) }
{
    let x = Numbers {
        names: numbers::le64(entries, from),
        span: numbers::le64(entries, from + 8),
        steps: numbers::le64(entries, from + 16),
        doubles: numbers::le64(entries, from + 24),
    };
    put_stretch(text, x);
}

// ---- a log

// The lines of a log's first n entries. The log itself is only spoken of.
fn put_stretches(text: &mut Text, log: &[u8], entries: &[u8], n: usize)
    requires { Entries log.now entries.now n }
    ensures { Puts text.old text.new (stretches_text log.now) }
{
    for i in 0..n {
        put_entry(text, entries, 32 * i);
    }
}

fn number(refused: Option<Refusal>) -> u64
    ensures { result ≡ number_of refused }
{
    match refused {
        Some(refusal) => u64::from(refusal.number()),
        None => 0,
    }
}

fn put_stop(text: &mut Text, log: &[u8])
    ensures put { Puts text.old text.new (end_text log.now) }
    ensures log_len_bound { length (end_text log.now) ≤ 58 }
{
    let stop = sign::replayed(log);
    let numbers = [stop.applied as u64, number(stop.refused)];
    form::put_form(text, b"applied # refused #\n", &numbers);
}

// 65,504 bytes have room for an entry of each record that a log can have, so that 6 is not given. Their lines, of at most 146 bytes, and the
// last, of at most 58, fit 298,920.
pub fn sign_log(text: &mut [u8], log: &[u8]) -> usize
    ensures put { Put text.old 0 (sign_text log.now) text.new result }
    ensures log_len_bound { length (sign_text log.now) ≤ 298_920 }
{
    let mut entries = [0u8; 65504];
    let signs = sign::sign(log, &mut entries);
    let mut text = Text::new(text);
    put_stretches(&mut text, log, &entries, signs.count);
    put_stop(&mut text, log);
    text.at
}

// The log on standard input, one byte more than it may have, so that an over-long one shows. What is read no contract can say.
pub fn sign_input(rt: &impl Input, text: &mut [u8]) -> usize
    ensures { IsPrefixLen result text.new }
{
    let mut log = [0u8; 32769];
    let n = outside::read_input(rt, &mut log);
    sign_log(text, &log[..n])
}
