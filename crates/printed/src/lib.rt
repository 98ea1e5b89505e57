// What a command that makes a log or a dump writes: the bytes that a call has made, for standard output, or its refusal, for standard error.
#![tactic(auto)]

ghost use Rattle.decimal.specs.Put.{Put};
ghost use Rattle.printed.specs.Printed.{Printing, failure_text, size_of};
ghost use Rattle.outside.specs.Counts.{IsPrefixLen};
ghost use Rattle.std.specs.Prelude.{◌≡◌, length};

use made::Failure;
use std::io::Input;

// How many bytes of a text are for standard output or, as an error, for standard error.
pub type Printed = Result<usize, usize>;

// A record is refused by 7 and above.
fn put_failure(text: &mut [u8], failure: Failure) -> usize
    ensures { Put text.old 0 (failure_text failure) text.new result }
{
    let number = failure.refusal.number() as u64;
    if number < 7 {
        return text_answers::refused_text(text, number);
    }
    text_answers::refused_record_text(text, number, failure.index as u64)
}

// A call has left so many bytes at the front of the text, or has failed.
pub fn told(text: &mut [u8], made: Result<usize, Failure>) -> Printed
    ensures { Printing made text.old text.new result }
{
    match made {
        Ok(size) => Ok(size),
        Err(failure) => Err(put_failure(text, failure)),
    }
}

// What is said of the log on standard input. One byte more than a log may have is read, so that an over-long one shows. What is read no
// contract can say.
pub fn of_input<F: FnOnce(&mut [u8], &[u8]) -> Printed>(
    rt: &impl Input,
    text: &mut [u8],
    say: F,
) -> Printed
    requires callable { (t : _) (l : _) → length t.now ≡ length text.old → F.pre say t l }
    requires says { (t : _) (l : _) (p : _) (t' : _) → F.post say t l p t' → IsPrefixLen (size_of p) t'.now }
    ensures { IsPrefixLen (size_of result) text.new }
{
    let mut log = [0u8; 32769];
    let n = outside::read_input(rt, &mut log);
    say(text, &log[..n])
}
