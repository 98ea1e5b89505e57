// What `rvz shrink` writes: the smaller log, for standard output, or the log's refusal, for standard error.
#![tactic(auto)]

ghost use Rattle.std.specs.Prelude.{◌≤◌, length};
ghost use Rattle.outside.specs.Counts.{IsPrefixLen};
ghost use Rattle.shrink.specs.Shrink.{smaller_of};
ghost use Rattle.printed.specs.Printed.{MadePrinted, size_of};

use printed::Printed;
use std::io::Input;

pub fn shrink_log(text: &mut [u8], log: &[u8]) -> Printed
    requires { 32768 ≤ length text.old }
    ensures { MadePrinted smaller_of log.now text.new result }
{
    let made = shrink::shrink(log, text);
    printed::told(text, made)
}

// The log on standard input. What is read no contract can say.
pub fn shrink_input(rt: &impl Input, text: &mut [u8]) -> Printed
    requires { 32768 ≤ length text.old }
    ensures { IsPrefixLen (size_of result) text.new }
{
    printed::of_input(rt, text, shrink_log)
}
