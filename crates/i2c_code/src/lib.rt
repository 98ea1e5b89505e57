// The control code of a GO: the states in which it is allowed, what the slave does not acknowledge of it, the state that it leaves.
#![tactic(auto)]

ghost use Rattle.std.specs.Prelude.{◌≡◌};
ghost use Rattle.i2c_code.specs.Code.{code_of, state_of, idle_in, allowed, forbidden, failed, ended, failure_number};

#[derive(Clone, Copy, PartialEq, Eq)]
pub enum Phase {
    Idle = 0,
    TxIdle = 1,
    RxIdle = 2,
}

// What the slave did not acknowledge of a GO. Whoever calls may give any byte: those above these numbers, which no GO leaves, are one case.
#[derive(Clone, Copy, PartialEq, Eq)]
pub enum Failure {
    Address,
    Data,
    Other(u8),
}

#[derive(Clone, Copy)]
pub struct Code {
    pub receive: bool,
    pub byte: bool,
    pub start: bool,
    pub stop: bool,
    pub ack: bool,
}

impl Code {
    pub fn of(addr: u8, cntl: u8) -> Code
        ensures { result ≡ code_of addr cntl }
    {
        Code {
            receive: addr % 2 == 1,
            byte: cntl % 2 == 1,
            start: cntl / 2 % 2 == 1,
            stop: cntl / 4 % 2 == 1,
            ack: cntl / 8 % 2 == 1,
        }
    }
}

pub fn state(phase: Phase) -> u8
    ensures { result ≡ state_of phase }
{
    phase as u8
}

// The state after a byte in a direction: another one can follow in the same direction.
fn idle_in(receive: bool) -> Phase
    ensures { result ≡ idle_in receive }
{
    if receive {
        Phase::RxIdle
    } else {
        Phase::TxIdle
    }
}

pub fn allowed(phase: Phase, code: Code) -> bool
    ensures { result ≡ allowed phase code }
{
    if code.byte {
        !(code.receive & (code.ack & code.stop)) & (code.start | (phase == idle_in(code.receive)))
    } else {
        !code.start & (code.stop & (phase != Phase::Idle))
    }
}

// A STOP alone after a byte that was received and acknowledged.
pub fn forbidden(phase: Phase, acknowledged: bool, code: Code) -> bool
    ensures { result ≡ forbidden phase acknowledged code }
{
    acknowledged & ((phase == Phase::RxIdle) & (!code.byte & (!code.start & code.stop)))
}

// What the slave does not acknowledge of a GO.
pub fn failed(answer: u8, code: Code) -> Option<Failure>
    ensures { result ≡ failed answer code }
{
    if code.start & !(answer % 2 == 1) {
        return Some(Failure::Address);
    }
    if code.byte & (!code.receive & !(answer / 2 % 2 == 1)) {
        return Some(Failure::Data);
    }
    None
}

// The number that is read of it: 0 where all was acknowledged.
pub fn number(failure: Option<Failure>) -> u8
    ensures { result ≡ failure_number failure }
{
    match failure {
        None => 0,
        Some(Failure::Address) => 1,
        Some(Failure::Data) => 2,
        Some(Failure::Other(n)) => n.max(3),
    }
}

// nobody: the address was not acknowledged.
pub fn ended(nobody: bool, code: Code) -> Phase
    ensures { result ≡ ended nobody code }
{
    if nobody | (!code.byte | code.stop) {
        Phase::Idle
    } else {
        idle_in(code.receive)
    }
}
