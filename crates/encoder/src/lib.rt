// One encoder: its count, the registers CNFG and STAT as numbers, and the pins last seen.
#![tactic(auto)]

ghost use Rattle.std.specs.Prelude.{◌≡◌};
ghost use Rattle.encoder_pins.specs.Pins.{forward};
ghost use Rattle.encoder.specs.Encoder.{stored, kept, counted, quadrature, clocked, on_cnfg, on_select, on_pins, register_of, fresh};

use encoder_count::{bit_pattern, kept_count, wrapping_step};
use encoder_pins::{Change, places, unsees};
use encoder_stat::{cleared_by, erred, marked};

#[derive(Clone, Copy)]
pub struct Encoder {
    pub count: i32,
    // numbers, as registers are: a field for each bit costs instructions at every record
    pub cnfg: u32,
    pub stat: u32,
    // two fields, since a stream's state has both as bytes, whatever the pins are that are unseen
    pub pins: u8,
    pub seen: bool,
}

impl Encoder {
    pub fn fresh() -> Encoder
        ensures { result ≡ fresh }
    {
        Encoder {
            count: 0,
            cnfg: 0,
            stat: 0,
            pins: 0,
            seen: false,
        }
    }

    // Pins that are stored, with the count and STAT that they leave.
    fn stored(self, v: u8, count: i32, stat: u32) -> Encoder
        ensures { result ≡ stored v count stat self }
    {
        Encoder {
            count,
            stat,
            pins: v,
            seen: true,
            ..self
        }
    }

    fn kept(self, v: u8) -> Encoder
        ensures { result ≡ kept v self }
    {
        Encoder {
            pins: v,
            seen: true,
            ..self
        }
    }

    // A step, forward or back.
    fn counted(self, back: bool, v: u8) -> Encoder
        ensures { result ≡ counted back v self }
    {
        let at = self.count;
        self.stored(v, wrapping_step(at, back), marked(at, back, self.stat))
    }

    // MODE 0.
    fn quadrature(self, change: Change, v: u8) -> Encoder
        ensures { result ≡ quadrature (forward change) v self }
    {
        match change {
            Change::Same => self.kept(v),
            Change::Forward => self.counted(false, v),
            Change::Double => self.stored(v, self.count, erred(self.stat)),
            Change::Back => self.counted(true, v),
        }
    }

    // MODE 1.
    fn clocked(self, v: u8) -> Encoder
        ensures { result ≡ clocked v self }
    {
        if !(self.pins % 2 == 1) & (v % 2 == 1) {
            // two calls, since in each the direction is a constant: with one every step costs two instructions more
            if v / 2 % 2 == 1 {
                self.counted(true, v)
            } else {
                self.counted(false, v)
            }
        } else {
            self.kept(v)
        }
    }

    // A pins record: bit 0 is A, bit 1 is B.
    pub fn pins(self, v: u8) -> Encoder
        ensures { result ≡ on_pins v self }
    {
        let c = self.cnfg;
        // EN 1, RST 0 and MODE 0, by one test
        if c % 8 == 1 {
            if self.seen {
                return self.quadrature(places(self.pins, v), v);
            }
            return self.kept(v);
        }
        if c % 2 == 0 {
            return self;
        }
        if !self.seen | (c / 2 % 2 == 1) {
            return self.kept(v);
        }
        self.clocked(v)
    }

    pub fn write_cnfg(self, v: u32) -> Encoder
        ensures { result ≡ on_cnfg v self }
    {
        let c = self.cnfg;
        Encoder {
            count: kept_count(v / 2 % 2 == 1, self.count),
            cnfg: v,
            stat: cleared_by(c, v, self.stat),
            seen: self.seen & !unsees(c, v),
            ..self
        }
    }

    // SELECT was written: whether it routed this encoder before, and does now.
    pub fn rerouted(self, was: bool, now: bool) -> Encoder
        ensures { result ≡ on_select was now self }
    {
        Encoder {
            seen: self.seen & !(!was & now),
            ..self
        }
    }

    // What register 0 to 2 reads: by its number, since a record is an enum of numbers.
    pub fn register(self, register: u64) -> u64
        ensures { result ≡ register_of register self }
    {
        match register {
            0 => self.cnfg as u64,
            1 => self.stat as u64,
            _ => bit_pattern(self.count) as u64,
        }
    }
}
