// The I2C control sequencer: the two registers that GO takes its code from, and the state that it leaves.
#![tactic(auto)]

ghost use Rattle.std.specs.Prelude.{◌≡◌};
ghost use Rattle.i2c_code.specs.Code.{allowed, forbidden};
ghost use Rattle.i2c.specs.I2c.{code, recalled, on_addr, on_cntl, on_answer, ran, register_of, fresh};
ghost use Rattle.i2c.specs.How.{on_write};

use i2c_code::{Code, Failure, Phase, allowed, ended, failed, forbidden, number, state};

#[derive(Clone, Copy)]
pub struct I2c {
    pub addr: u8,
    pub cntl: u8,
    pub phase: Phase,
    // whether the last received byte was
    pub acknowledged: bool,
    // how the slave answers the next GO: bit 0 the address, bit 1 the data; a byte, since a record and a stream's state have it so
    pub answer: u8,
    // of the last GO
    pub failure: Option<Failure>,
}

fn recalled(nobody: bool, code: Code) -> bool
    ensures { result ≡ recalled nobody code }
{
    !nobody & (code.byte & (code.receive & (!code.stop & code.ack)))
}

impl I2c {
    pub fn fresh() -> I2c
        ensures { result ≡ fresh }
    {
        I2c {
            addr: 0,
            cntl: 0,
            phase: Phase::Idle,
            acknowledged: false,
            answer: 3,
            failure: None,
        }
    }

    fn write_addr(self, v: u8) -> I2c
        ensures { result ≡ on_addr v self }
    {
        I2c { addr: v, ..self }
    }

    fn write_cntl(self, v: u8) -> I2c
        ensures { result ≡ on_cntl v self }
    {
        I2c { cntl: v, ..self }
    }

    // Whether a GO is allowed.
    pub fn permits(self) -> bool
        ensures { result ≡ allowed self.phase (code self) }
    {
        allowed(self.phase, Code::of(self.addr, self.cntl))
    }

    // Whether a GO that is allowed is forbidden all the same.
    pub fn forbids(self) -> bool
        ensures { result ≡ forbidden self.phase self.acknowledged (code self) }
    {
        forbidden(
            self.phase,
            self.acknowledged,
            Code::of(self.addr, self.cntl),
        )
    }

    // A GO that is not refused.
    fn go(self) -> I2c
        ensures { result ≡ ran self }
    {
        let code = Code::of(self.addr, self.cntl);
        let failure = failed(self.answer, code);
        let nobody = failure == Some(Failure::Address);
        I2c {
            phase: ended(nobody, code),
            acknowledged: recalled(nobody, code),
            answer: 3, // used up
            failure,
            ..self
        }
    }

    // How the slave answers the next GO that is not refused.
    pub fn answer(self, v: u8) -> I2c
        ensures { result ≡ on_answer v self }
    {
        I2c { answer: v, ..self }
    }

    // A write of ADDR, CNTL or GO, which are 0 to 2, that is not refused: by number, since a record is an enum of numbers.
    pub fn write(self, register: u64, v: u8) -> I2c
        ensures { result ≡ on_write register v self }
    {
        match register {
            0 => self.write_addr(v),
            1 => self.write_cntl(v),
            _ => self.go(),
        }
    }

    pub fn register(self, register: u64) -> u64
        ensures { result ≡ register_of register self }
    {
        match register {
            0 => self.addr as u64,
            1 => self.cntl as u64,
            3 => state(self.phase) as u64,
            _ => number(self.failure) as u64,
        }
    }
}
