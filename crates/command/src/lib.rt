// What the program's arguments ask for, and what it says of its use.
#![tactic(auto)]

ghost use Rattle.std.specs.Prelude.{◌≡◌};
ghost use Rattle.outside.specs.Counts.{IsPrefixLen};
ghost use Rattle.command.specs.Asked.{alone_of, of_two, command_of};

use std::rt::Env;

// What the arguments ask for.
#[derive(Clone, Copy)]
pub enum Command {
    Replay,
    Dump,
    Shrink,
    Sign,
    Judge,
    Write,
    Stream,
    Rate,
    Version,
    Help,
}

// By the first argument, one word.
fn alone(word: &[u8]) -> Command
    ensures { result ≡ alone_of word.now }
{
    if word == b"dump".as_slice() {
        Command::Dump
    } else if word == b"shrink".as_slice() {
        Command::Shrink
    } else if word == b"sign".as_slice() {
        Command::Sign
    } else if word == b"version".as_slice() {
        Command::Version
    } else {
        Command::Help
    }
}

// By the first argument of two.
fn of_two(word: &[u8]) -> Command
    ensures { result ≡ of_two word.now }
{
    if word == b"judge".as_slice() {
        Command::Judge
    } else if word == b"stream".as_slice() {
        Command::Stream
    } else {
        Command::Help
    }
}

// By the first argument and how many there are, the program's own name among them.
pub fn asked(word: &[u8], words: usize) -> Command
    ensures { result ≡ command_of word.now words }
{
    let write = word == b"write".as_slice();
    match words {
        0 | 1 => Command::Replay,
        2 => alone(word),
        3 | 4 if write => Command::Write,
        3 => of_two(word),
        4 => Command::Rate,
        _ => Command::Help,
    }
}

pub fn usage(text: &mut [u8]) -> usize
    ensures { IsPrefixLen result text.new }
{
    text::put_word(
        text,
        0,
        b"usage: rvz                      replays the log on standard input
       rvz dump                 that log's pins as a value change dump, or 'refused R' on standard error
       rvz shrink               that log without the records that change nothing, or 'refused R' on standard error
       rvz sign                 what that log settles of each encoder's direction, stretch by stretch
       rvz judge FILE           the transcript in FILE by that log: 'same', 'negated', 'both', 'different I' or 'refused R'
       rvz pwm RATE TOL         the pair for a PWM rate: 'choice C x X period P' or 'refused R'
       rvz spi RATE TOL         the pair for an SPI rate
       rvz pwm-rate CHOICE X    the rate of a PWM pair: '40000000 P', a fraction, or 'refused R'
       rvz spi-rate CHOICE X    the rate of an SPI pair
       rvz write EDITION [FILE] a log of the records on standard input, behind the notes in FILE, or 'refused R' on standard error
       rvz stream EDITION       replays records on standard input while they arrive, with no trailer
       rvz version, rvz help
RATE is in millihertz, thousandths of a hertz: 40125 is 40.125 Hz. TOL is in millionths of RATE
",
    )
}

// Argument i as a number. One that does not fit the buffer is no number, since `arg` then gives no byte of it.
fn number(rt: &impl Env, i: usize) -> Option<u64> {
    let mut word = outside::buffer();
    let n = outside::arg(rt, i, &mut word);
    decimal::read(&word[..n])
}

pub fn rate(rt: &impl Env, text: &mut [u8]) -> usize
    ensures { IsPrefixLen result text.new }
{
    let mut word = outside::buffer();
    let n = outside::arg(rt, 1, &mut word);
    let question = rate_print::asked(&word[..n]);
    if question.is_none() {
        return usage(text);
    }
    rate_print::say(text, question, number(rt, 2), number(rt, 3))
}
