// One PWM channel: its registers, and the wave that ticks move.
#![tactic(auto)]

ghost use Rattle.std.specs.Prelude.{◌≡◌, true};
ghost use Rattle.pwm.specs.Pwm.{mode, on_ticks, on_write, register_of, fresh};
ghost use Rattle.pwm.specs.How.{inv, at, moved, climbed, wrapped, steps_of, until_zero};
ghost use Rattle.pwm.specs.Facts.{Short};

// CS 1 to 7 have the places 0 to 6 in the divider table.
const LAST_PLACE: u16 = 6;

#[derive(Clone, Copy)]
pub struct Registers {
    pub max: u16,
    pub cmp: u16,
    pub cnfg: u16,
    pub cs: u16,
}

// What ticks move: the counter, the clock's remainder, the output.
#[derive(Clone, Copy)]
pub struct Wave {
    pub counter: u16,
    pub remainder: u8,
    pub output: bool,
}

#[derive(Clone, Copy)]
pub struct Pwm {
    pub registers: Registers,
    pub wave: Wave,
}

fn inv(cnfg: u16) -> bool
    ensures { result ≡ inv cnfg }
{
    cnfg % 2 == 1
}

fn mode(cnfg: u16) -> bool
    ensures { result ≡ mode cnfg }
{
    cnfg / 4 % 2 == 1
}

// How many steps there are to 0. From above MAX it is one, or by the newer rule the way on to 65,535 and the step from there.
fn until_zero(runs: bool, counter: u16, max: u16) -> u32
    ensures { result ≡ until_zero runs counter max }
{
    if max < counter {
        if runs { 65536 - counter as u32 } else { 1 }
    } else {
        (max - counter) as u32 + 1
    }
}

impl Pwm {
    pub fn fresh() -> Pwm
        ensures { result ≡ fresh }
    {
        Pwm {
            registers: Registers {
                max: 0,
                cmp: 0,
                cnfg: 0,
                cs: 0,
            },
            wave: Wave {
                counter: 0,
                remainder: 0,
                output: false,
            },
        }
    }

    // What ticks can change.
    fn moved(self, counter: u16, remainder: u8, output: bool) -> Pwm
        ensures { result ≡ moved self (at counter remainder output) }
    {
        Pwm {
            wave: Wave {
                counter,
                remainder,
                output,
            },
            ..self
        }
    }

    // MODE 1: the counter goes up to k.
    fn climbed(self, k: u16, r: u8) -> Pwm
        ensures { result ≡ moved self (climbed self.registers k r self.wave) }
    {
        if (self.wave.counter < self.registers.cmp) & (self.registers.cmp <= k) {
            return self.moved(k, r, inv(self.registers.cnfg));
        }
        self.moved(k, r, self.wave.output)
    }

    // MODE 1: the counter goes to 0, perhaps often, and then up to k.
    fn wrapped(self, k: u16, r: u8) -> Pwm
        ensures { result ≡ moved self (wrapped self.registers k r) }
    {
        self.moved(k, r, inv(self.registers.cnfg) == (self.registers.cmp <= k))
    }

    // s steps in MODE 1. The output depends only on the way since the counter was last 0.
    fn in_mode_1(self, runs: bool, s: u32, r: u8) -> Pwm
        requires { mode self.registers.cnfg ≡ true }
        ensures { result ≡ moved self (steps_of runs s r self.registers self.wave) }
    {
        let room = until_zero(runs, self.wave.counter, self.registers.max);
        if s < room {
            self.climbed((self.wave.counter as u32 + s) as u16, r)
        } else {
            self.wrapped(((s - room) % (self.registers.max as u32 + 1)) as u16, r)
        }
    }

    // s steps, and the remainder that is left.
    fn steps(self, runs: bool, s: u32, r: u8) -> Pwm
        ensures { result ≡ moved self (steps_of runs s r self.registers self.wave) }
    {
        if mode(self.registers.cnfg) {
            self.in_mode_1(runs, s, r)
        } else {
            let end = self.wave.counter.wrapping_add((s % 65536) as u16);
            self.moved(end, r, self.wave.output)
        }
    }

    // A record of t ticks. CS 0 wraps to no place. N is two to the power of its place (divider/proofs/Powers.antt), so that a shift divides by it.
    pub fn ticks(self, runs: bool, t: u32) -> Pwm
        requires { Short self }
        ensures { result ≡ on_ticks runs t self }
    {
        let place = self.registers.cs.wrapping_sub(1);
        if LAST_PLACE < place {
            return self;
        }
        let m = self.wave.remainder as u64 + t as u64;
        let s = m >> (place as u64);
        self.steps(runs, s as u32, (m - (s << (place as u64))) as u8)
    }

    // A write of CNFG, CS, MAX or CMP, which are 0 to 3: by number, since a record is an enum of numbers.
    pub fn write(self, register: u64, v: u16) -> Pwm
        ensures { result ≡ on_write register v self }
    {
        match register {
            0 => Pwm {
                registers: Registers {
                    cnfg: v,
                    ..self.registers
                },
                wave: Wave {
                    output: self.wave.output & mode(v),
                    ..self.wave
                },
            },
            1 => Pwm {
                registers: Registers {
                    cs: v,
                    ..self.registers
                },
                wave: Wave {
                    remainder: 0,
                    ..self.wave
                },
            },
            2 => Pwm {
                registers: Registers {
                    max: v,
                    ..self.registers
                },
                ..self
            },
            3 => Pwm {
                registers: Registers {
                    cmp: v,
                    ..self.registers
                },
                ..self
            },
            _ => self,
        }
    }

    pub fn register(self, register: u64) -> u64
        ensures { result ≡ register_of register self }
    {
        match register {
            0 => self.registers.cnfg as u64,
            1 => self.registers.cs as u64,
            2 => self.registers.max as u64,
            3 => self.registers.cmp as u64,
            4 => self.wave.counter as u64,
            _ => self.wave.output as u64,
        }
    }
}
