// What `rvz dump` writes: a log's dump, for standard output, or its refusal, for standard error.
#![tactic(auto)]

ghost use Rattle.std.specs.Prelude.{◌≤◌, length};
ghost use Rattle.outside.specs.Counts.{IsPrefixLen};
ghost use Rattle.dump.specs.Dump.{dump_text};
ghost use Rattle.printed.specs.Printed.{MadePrinted, size_of};

use printed::Printed;
use std::io::Input;

// Beside `shrink_print::shrink_log` these are two lines, which differ in the call.
pub fn dump_log(text: &mut [u8], log: &[u8]) -> Printed
    requires { 25207 ≤ length text.old }
    ensures { MadePrinted dump_text log.now text.new result }
{
    let made = dump::dump(log, text);
    printed::told(text, made)
}

// The log on standard input. What is read no contract can say.
pub fn dump_input(rt: &impl Input, text: &mut [u8]) -> Printed
    requires { 25207 ≤ length text.old }
    ensures { IsPrefixLen (size_of result) text.new }
{
    printed::of_input(rt, text, dump_log)
}
