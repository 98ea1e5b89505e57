// Words, numbers and lines, put as bytes into a lent slice.
#![tactic(auto)]

ghost use Rattle.std.specs.Prelude.{◌≡◌, [], ◌∷◌, ◌++◌, ◌+◌, ◌≤◌, length};
ghost use Rattle.decimal.specs.Digits.{digits_of};
ghost use Rattle.decimal.specs.Put.{Put};
ghost use Rattle.text.specs.Puts.{Puts};
ghost use Rattle.text.specs.Text.{line};

// A word that has room. Byte by byte, which is compiled to copy many at a time: `copy_from_slice` asks first whether the two lie apart, which costs
// each record of `rvz_shrink` more than the copying.
pub fn copy(out: &mut [u8], at: usize, word: &[u8]) -> usize
    requires { at + length word.now ≤ length out.old }
    ensures { Put out.old at word.now out.new result }
{
    for (i, &b) in word.iter().enumerate() {
        out[at + i] = b;
    }
    at + word.len()
}

// As much of a word as has room, and the place after it. Logs and dumps are put by place, and not as a `Text`: with the place in memory each change of
// a dump takes two instructions more.
pub fn put_word(out: &mut [u8], at: usize, word: &[u8]) -> usize
    ensures { Put out.old at word.now out.new result }
{
    if out.len() <= at {
        return at;
    }
    let room = out.len() - at;
    if word.len() <= room {
        return copy(out, at, word);
    }
    copy(out, at, &word[..room])
}

// A lent slice that a text is put into, and the place after what stands there.
#[derive(Drop)]
pub struct Text<'a> {
    pub out: &'a mut [u8],
    pub at: usize,
}

impl<'a> Text<'a> {
    pub fn new(out: &'a mut [u8]) -> Text<'a>
        ensures same_reference { result.out.ghost_name ≡ out.entry.ghost_name }
        ensures same { result.out.now ≡ out.old }
        ensures start { result.at ≡ 0 }
    {
        Text { out, at: 0 }
    }

    // As much as has room, here and below.
    pub fn byte(&mut self, b: u8)
        ensures { Puts self.old self.new (b ∷ []) }
    {
        self.at = decimal::put_byte(self.out, self.at, b);
    }

    pub fn word(&mut self, word: &[u8])
        ensures { Puts self.old self.new word.now }
    {
        self.at = put_word(self.out, self.at, word);
    }

    pub fn number(&mut self, n: u64)
        ensures { Puts self.old self.new (digits_of n) }
    {
        self.at = decimal::put(self.out, self.at, n);
    }

    // A word and a number.
    pub fn count(&mut self, word: &[u8], n: u64)
        ensures { Puts self.old self.new (word.now ++ digits_of n) }
    {
        self.word(word);
        self.number(n);
    }

    // A line of a word and a number.
    pub fn line(&mut self, word: &[u8], n: u64)
        ensures { Puts self.old self.new (line (word.now ++ digits_of n)) }
    {
        self.count(word, n);
        self.byte(b'\n');
    }

    // A line of two words, each with a number after it.
    pub fn pair(&mut self, first: &[u8], a: u64, second: &[u8], b: u64)
        ensures { Puts self.old self.new (line (first.now ++ digits_of a ++ second.now ++ digits_of b)) }
    {
        self.count(first, a);
        self.line(second, b);
    }
}
