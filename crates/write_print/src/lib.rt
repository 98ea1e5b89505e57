// What `rvz write` writes: a log made of the records on standard input, for standard output, or its refusal, for standard error.
#![tactic(auto)]

ghost use Rattle.std.specs.Prelude.{◌≤◌, length, Some};
ghost use Rattle.outside.specs.Counts.{IsPrefixLen};
ghost use Rattle.printed.specs.Printed.{size_of};
ghost use Rattle.write_print.specs.Printed.{WritePrinted};

use printed::Printed;
use std::io::Input;
use std::rt::{Env, Files};

fn write_edition(text: &mut [u8], edition: u64, notes: &[u8], records: &[u8]) -> Printed
    requires { 32768 ≤ length text.old }
    ensures { WritePrinted (Some edition) notes.now records.now text.new result }
{
    let written = writer::write(edition, notes, records, text);
    printed::told(text, written)
}

pub fn write_log(text: &mut [u8], edition: Option<u64>, notes: &[u8], records: &[u8]) -> Printed
    requires { 32768 ≤ length text.old }
    ensures { WritePrinted edition notes.now records.now text.new result }
{
    let Some(number) = edition else {
        return Err(text_answers::no_number_text(text, b"EDITION"));
    };
    write_edition(text, number, notes, records)
}

// The records on standard input, behind these notes. What is read no contract can say. No log has 2,049 records, so that an over-long
// input shows.
fn write_records(rt: &(impl Env + Input), text: &mut [u8], notes: &[u8]) -> Printed
    requires { 32768 ≤ length text.old }
    ensures { IsPrefixLen (size_of result) text.new }
{
    let mut word = outside::buffer();
    let n = outside::arg(rt, 2, &mut word);
    let mut records = [0u8; 32784];
    let k = outside::read_input(rt, &mut records);
    write_log(text, decimal::read(&word[..n]), notes, &records[..k])
}

// By the program's arguments: EDITION, and a file of notes or none. One byte more than a log may have, so that over-long notes show.
pub fn write_input(rt: &(impl Env + Files + Input), text: &mut [u8]) -> Printed
    requires { 32768 ≤ length text.old }
    ensures { IsPrefixLen (size_of result) text.new }
{
    if outside::arg_count(rt) != 4 {
        return write_records(rt, text, b"");
    }
    let mut path = outside::buffer();
    let n = outside::arg(rt, 3, &mut path);
    let mut notes = [0u8; 32769];
    let Some(m) = outside::read_file(rt, &path[..n], &mut notes) else {
        return Err(text::put_word(text, 0, b"the notes' file cannot be opened\n"));
    };
    write_records(rt, text, &notes[..m])
}
