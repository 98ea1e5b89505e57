// What `rvz judge` prints: the verdict on the transcript in a file, by the log on standard input.
#![tactic(auto)]

ghost use Rattle.outside.specs.Counts.{IsPrefixLen};
ghost use Rattle.decimal.specs.Put.{Put};
ghost use Rattle.judge_print.specs.Verdicts.{verdict_text, VerdictSaid};

use refused::Refusal;
use std::io::Input;
use std::rt::{Env, Files};
use transcript::Verdict;

fn say_verdict(text: &mut [u8], verdict: Result<Verdict, Refusal>) -> usize
    ensures { Put text.old 0 (verdict_text verdict) text.new result }
{
    match verdict {
        Ok(Verdict::Same) => text::put_word(text, 0, b"same\n"),
        Ok(Verdict::Negated) => text::put_word(text, 0, b"negated\n"),
        Ok(Verdict::Both) => text::put_word(text, 0, b"both\n"),
        Ok(Verdict::Different(i)) => text_answers::different_text(text, i as u64),
        Err(refusal) => text_answers::refused_text(text, u64::from(refusal.number())),
    }
}

// What is said of a transcript.
pub fn judge_log(text: &mut [u8], log: &[u8], transcript: &[u8]) -> usize
    ensures { VerdictSaid log.now transcript.now text.old text.new result }
{
    say_verdict(text, judge::judge(log, transcript))
}

// One byte more than the longest transcript has, so that an over-long one shows.
pub fn judge_input(rt: &(impl Env + Files + Input), text: &mut [u8]) -> usize
    ensures { IsPrefixLen result text.new }
{
    let mut path = outside::buffer();
    let n = outside::arg(rt, 2, &mut path);
    let mut transcript = [0u8; 16377];
    let Some(m) = outside::read_file(rt, &path[..n], &mut transcript) else {
        return text::put_word(text, 0, b"the transcript's file cannot be opened\n");
    };
    let mut log = [0u8; 32769];
    let n = outside::read_input(rt, &mut log);
    judge_log(text, &log[..n], &transcript[..m])
}
