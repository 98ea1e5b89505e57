// The judge of transcripts. Its answer is one number: the refusal in the low byte, 0 if none, above it the verdict, and above that the index
// of the first reading that differs.
ghost use Rattle.transcript.specs.Judge.{Judged};
ghost use Rattle.words.specs.Word.{judged_in};

#[unsafe(no_mangle)]
pub extern "C" fn rvz_judge(log: &[u8], transcript: &[u8]) -> u64
    ensures { Judged log.now transcript.now (judged_in result) }
{
    words::verdict_word(judge::judge(log, transcript))
}
