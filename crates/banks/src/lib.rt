// Both banks: as two bank structs, which is how a state is passed and returned, and laid out flat, which is how the replay walks over it.
#![tactic(auto)]

ghost use Rattle.std.specs.Prelude.{◌≡◌, ◌<◌, length};
ghost use Rattle.banks.specs.State.{fresh, with_bank};
ghost use Rattle.banks.specs.How.{state_of, bank_in};

use bank::Bank;
use encoder::Encoder;
use i2c::I2c;
use pwm::Pwm;

#[derive(Clone, Copy)]
pub struct State {
    pub banks: [Bank; 2],
}

// Channel i of bank k of n is at n * k + i.
#[derive(Clone, Copy)]
pub struct Flat {
    pub selects: [u64; 2],
    pub encoders: [Encoder; 20],
    pub pwms: [Pwm; 40],
    pub i2cs: [I2c; 2],
}

pub fn fresh() -> State
    ensures { result ≡ fresh }
{
    State {
        banks: [bank::fresh(); 2],
    }
}

// As `copy_from_slice` does, which takes three times the instructions.
fn copy<T: Copy>(to: &mut [T], from: &[T])
    requires { length to.old ≡ length from.now }
    ensures { to.new ≡ from.now }
{
    for i in 0..from.len() {
        to[i] = from[i];
    }
}

// Bank k becomes b.
fn laid(f: Flat, k: usize, b: Bank) -> Flat
    requires { k < 2 }
    ensures { state_of result ≡ with_bank k (state_of f) b }
{
    let mut g = f;
    copy(&mut g.encoders[10 * k..10 * k + 10], &b.encoders);
    copy(&mut g.pwms[20 * k..20 * k + 20], &b.pwms);
    g.i2cs[k] = b.i2c;
    g.selects[k] = b.select;
    g
}

pub fn laid_out(s: State) -> Flat
    ensures { state_of result ≡ s }
{
    let f = Flat {
        selects: [0; 2],
        encoders: [Encoder::fresh(); 20],
        pwms: [Pwm::fresh(); 40],
        i2cs: [I2c::fresh(); 2],
    };
    let a = s.banks[0];
    let b = s.banks[1];
    laid(laid(f, 0, a), 1, b)
}

fn bank_in(f: Flat, k: usize) -> Bank
    requires { k < 2 }
    ensures { result ≡ bank_in k f }
{
    let mut b = bank::fresh();
    copy(&mut b.encoders, &f.encoders[10 * k..10 * k + 10]);
    copy(&mut b.pwms, &f.pwms[20 * k..20 * k + 20]);
    b.i2c = f.i2cs[k];
    b.select = f.selects[k];
    b
}

pub fn gathered(f: Flat) -> State
    ensures { result ≡ state_of f }
{
    let a = bank_in(f, 0);
    let b = bank_in(f, 1);
    State { banks: [a, b] }
}
