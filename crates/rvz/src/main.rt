// With no argument it replays the log on standard input; the first argument asks for something else. Its exit status tells a write that failed
// and nothing else, so all it has to say goes to standard output, but for the refusal of a dump, of a smaller log or of records: built in one
// buffer by a crate for each command, every byte promised, and written at once; the readings of a stream are written before, as they come.
// What is read and written no contract can say: the functions here promise how many bytes there are, and no more.
#![tactic(auto)]

ghost use Rattle.std.specs.Prelude.{◌≡◌, ◌≤◌, length, IfOk, OnErr};
ghost use Rattle.outside.specs.Counts.{IsPrefixLen};
ghost use Rattle.printed.specs.Printed.{size_of};

use command::Command;
use printed::Printed;
use std::io;
use std::io::{Input, Print};
use std::rt::{Env, Files};

// Where there is no argument, `arg` gives no byte.
fn wanted(rt: &impl Env) -> Command {
    let words = outside::arg_count(rt);
    let mut word = outside::buffer();
    let n = outside::arg(rt, 1, &mut word);
    command::asked(&word[..n], words)
}

// Of a stream the readings are written, and the text is as it was where that fails.
fn print(
    rt: &(impl Env + Files + Input + Print),
    text: &mut [u8],
    command: Command,
) -> io::Result<Printed>
    requires { 298920 ≤ length text.old }
    ensures prefix_len { IfOk result (λ p. IsPrefixLen (size_of p) text.new) }
    ensures unchanged { OnErr result (text.new ≡ text.old) }
{
    match command {
        Command::Replay => Ok(Ok(replay_print::replay_input(rt, text))),
        Command::Dump => Ok(dump_print::dump_input(rt, text)),
        Command::Shrink => Ok(shrink_print::shrink_input(rt, text)),
        Command::Sign => Ok(Ok(sign_print::sign_input(rt, text))),
        Command::Judge => Ok(Ok(judge_print::judge_input(rt, text))),
        Command::Write => Ok(write_print::write_input(rt, text)),
        Command::Stream => stream_print::stream_input(rt, text),
        Command::Rate => Ok(Ok(command::rate(rt, text))),
        Command::Version => Ok(Ok(text::put_word(text, 0, b"rvz 1.0.0\n"))),
        Command::Help => Ok(Ok(command::usage(text))),
    }
}

// The longest text is that of `sign`. A refusal goes to standard error: standard output has a whole dump or log, or nothing.
fn main(rt: HostRuntime) -> io::Result<()> {
    let mut text = [0u8; 298920];
    match print(&rt, &mut text, wanted(&rt))? {
        Ok(n) => rt.stdout().write_all(&text[..n]),
        Err(n) => rt.stderr().write_all(&text[..n]),
    }
}
