// The editions of the log's format: what each of them turns on.
#![tactic(auto)]

ghost use Rattle.std.specs.Prelude.{◌≡◌};
ghost use Rattle.edition.specs.Edition.{known, edition_of};

#[derive(Clone, Copy)]
pub struct Edition {
    // a PWM counter above MAX runs on to 65,535
    pub runs: bool,
    // byte 4 of a record names one of two banks
    pub banks: bool,
    // a record tells how a slave answers
    pub answers: bool,
    // an encoder's step-and-direction mode is refused
    pub quadrature: bool,
    // SELECT is a byte of a myRIO's expansion port
    pub port: bool,
}

impl Edition {
    pub fn known(number: u64) -> bool
        ensures { result ≡ known number }
    {
        matches!(number, 1..=4)
    }

    // Of any number, and no Option: a trailer and a state hold the number, and a replay that goes on from them does not ask `known` again.
    pub fn of(number: u64) -> Edition
        ensures { result ≡ edition_of number }
    {
        Edition {
            runs: number > 1,
            banks: number > 1,
            answers: number > 1,
            quadrature: number == 3,
            port: number == 4,
        }
    }
}
