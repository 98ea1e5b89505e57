// Judges a transcript by the replay of a log.
#![tactic(auto)]

ghost use Rattle.transcript.specs.Judge.{Answer};

use refused::Refusal;
use transcript::Verdict;

pub fn judge(log: &[u8], transcript: &[u8]) -> Result<Verdict, Refusal>
    ensures { Answer log.now transcript.now result }
{
    let mut out = [0u8; 16384];
    let stop = replay::replay(log, &mut out);
    if let Some(refusal) = stop.refused {
        return Err(refusal);
    }
    if transcript.len() != 8 * stop.readings {
        return Err(Refusal::WrongTranscript);
    }
    let trailer = trailer::find(log)?;
    Ok(transcript::compare(log, trailer.start, &out, transcript))
}
