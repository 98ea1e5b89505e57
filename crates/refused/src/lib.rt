// Why a log, a record or a request is refused: a name for each number of papers 01 and 02, the same as the header's. A field that says what
// refused is a byte for whoever calls: the bytes above these numbers, which no paper gives and nothing here makes, are one case.
#![tactic(auto)]

ghost use Rattle.std.specs.Prelude.{◌≡◌};
ghost use Rattle.refused.specs.Number.{number};

#[derive(Clone, Copy, PartialEq, Eq)]
pub enum Refusal {
    LogTooLong,
    LogTooShort,
    WrongMark,
    WrongEdition,
    WrongDistance,
    OutputTooShort,
    NoSuchRecord,
    ValueOutOfRange,
    NotRouted,
    WrongSelect,
    WrongControl,
    RateOutOfRange,
    ToleranceTooLarge,
    NoPair,
    NoSuchPair,
    StopAfterAck,
    WrongTranscript,
    StepAndDirection,
    NoState,
    NoDump,
    Other(u8),
}

impl Refusal {
    // The number that C gets.
    pub fn number(self) -> u8
        ensures { result ≡ number self }
    {
        match self {
            Refusal::LogTooLong => 1,
            Refusal::LogTooShort => 2,
            Refusal::WrongMark => 3,
            Refusal::WrongEdition => 4,
            Refusal::WrongDistance => 5,
            Refusal::OutputTooShort => 6,
            Refusal::NoSuchRecord => 7,
            Refusal::ValueOutOfRange => 8,
            Refusal::NotRouted => 9,
            Refusal::WrongSelect => 10,
            Refusal::WrongControl => 11,
            Refusal::RateOutOfRange => 12,
            Refusal::ToleranceTooLarge => 13,
            Refusal::NoPair => 14,
            Refusal::NoSuchPair => 15,
            Refusal::StopAfterAck => 16,
            Refusal::WrongTranscript => 17,
            Refusal::StepAndDirection => 18,
            Refusal::NoState => 19,
            Refusal::NoDump => 20,
            Refusal::Other(n) => n.max(21),
        }
    }
}
