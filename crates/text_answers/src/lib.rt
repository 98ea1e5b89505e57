// What the commands print in one line: rates, verdicts, refusals. Every function answers the place after what it put.
#![tactic(auto)]

ghost use Rattle.decimal.specs.Put.{Put};
ghost use Rattle.text.specs.Text.{pair_text, rate_text, refused_text, refused_record_text, no_number_text, different_text};

use text::Text;

// What the rate commands print.
pub fn pair_text(out: &mut [u8], choice: u64, x: u64, period: u64) -> usize
    ensures { Put out.old 0 (pair_text choice x period) out.new result }
{
    let mut text = Text::new(out);
    text.count(b"choice ", choice);
    text.pair(b" x ", x, b" period ", period);
    text.at
}

pub fn rate_text(out: &mut [u8], clock: u64, period: u64) -> usize
    ensures { Put out.old 0 (rate_text clock period) out.new result }
{
    let mut text = Text::new(out);
    text.pair(b"", clock, b" ", period);
    text.at
}

// A number, as the text has it.
pub fn refused_text(out: &mut [u8], number: u64) -> usize
    ensures { Put out.old 0 (refused_text number) out.new result }
{
    let mut text = Text::new(out);
    text.line(b"refused ", number);
    text.at
}

// The same of a record, by its index.
pub fn refused_record_text(out: &mut [u8], number: u64, index: u64) -> usize
    ensures { Put out.old 0 (refused_record_text number index) out.new result }
{
    let mut text = Text::new(out);
    text.pair(b"refused ", number, b" record ", index);
    text.at
}

// What is said to a word that is no number, by what it should have been.
pub fn no_number_text(out: &mut [u8], name: &[u8]) -> usize
    ensures { Put out.old 0 (no_number_text name.now) out.new result }
{
    let mut text = Text::new(out);
    text.word(name);
    text.line(b" is no decimal number from 0 to ", u64::MAX);
    text.at
}

// What the judge prints where a transcript differs.
pub fn different_text(out: &mut [u8], index: u64) -> usize
    ensures { Put out.old 0 (different_text index) out.new result }
{
    let mut text = Text::new(out);
    text.line(b"different ", index);
    text.at
}
