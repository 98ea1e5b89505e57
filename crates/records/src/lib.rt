// What a record's fields name, by the table of kinds, blocks, channels and registers; or its refusal.
#![tactic(auto)]

ghost use Rattle.std.specs.Prelude.{◌≡◌, Ok, Err, cond};
ghost use Rattle.refused.specs.declared.Refusal.TheVariants.{NoSuchRecord};
ghost use Rattle.records.specs.Record.{fitting, select_range, pwm_cnfg, pwm_range, i2c_range, write_of, read_of, pins_of, ticks_of, answer_of, named_of};

use refused::Refusal;

// What a record names: its access with its channel, its register and its value, in this order, where it has them. Registers have the
// paper's numbers. Each number is 64 bits wide, so that the variants lie alike and none has to be kept in memory.
#[derive(Clone, Copy)]
pub enum Record {
    WriteSelect(u64),
    WriteEncoder(usize, u64),
    WritePwm(usize, u64, u64),
    WriteI2c(u64, u64),
    Answer(u64),
    ReadSelect,
    ReadEncoder(usize, u64),
    ReadPwm(usize, u64),
    ReadI2c(u64),
    Pins(usize, u64),
    Ticks(u64),
}

// The fields of a record as its bytes have them; the bank with the reserved bytes as the upper ones of one number.
#[derive(Clone, Copy)]
pub struct Fields {
    pub kind: u8,
    pub block: u8,
    pub channel: u8,
    pub register: u8,
    pub bank: u64,
    pub value: u64,
}

// ---- the values that a register takes

fn pwm_cnfg(v: u64) -> bool
    ensures { result ≡ pwm_cnfg v }
{
    matches!(v, 0 | 1 | 4 | 5)
}

pub fn pwm_range(register: u8, v: u64) -> bool
    ensures { result ≡ pwm_range register v }
{
    match register {
        0 => pwm_cnfg(v),
        1 => v < 8,
        _ => v < 65536,
    }
}

pub fn i2c_range(register: u8, v: u64) -> bool
    ensures { result ≡ i2c_range register v }
{
    match register {
        0 => v < 256,
        1 => v < 16,
        _ => v == 1,
    }
}

pub fn select_range(port: bool, v: u64) -> bool
    ensures { result ≡ select_range port v }
{
    if port {
        (v < 256) & !((v >> 6) % 2 == 1)
    } else {
        v < 1099511627776
    }
}

// ---- what is tested of a record: first whether it is listed, then its value

fn listed(is: bool) -> Result<(), Refusal>
    ensures { result ≡ cond is (Ok tt) (Err NoSuchRecord) }
{
    if is {
        Ok(())
    } else {
        Err(Refusal::NoSuchRecord)
    }
}

fn fitting(fits: bool, r: Record) -> Result<Record, Refusal>
    ensures { result ≡ fitting fits r }
{
    if fits {
        Ok(r)
    } else {
        Err(Refusal::ValueOutOfRange)
    }
}

pub fn i2c_registers(answers: bool) -> u8
    ensures { result ≡ cond answers 5 4 }
{
    if answers { 5 } else { 4 }
}

// ---- the kinds

impl Fields {
    #[tactic(auto, unfolding(crate::specs::Record::write_of))]
    fn select_write(self, port: bool) -> Result<Record, Refusal>
        ensures { result ≡ write_of port 0 self.channel self.register self.value }
    {
        listed((self.channel == 0) & (self.register == 0))?;
        fitting(
            select_range(port, self.value),
            Record::WriteSelect(self.value),
        )
    }

    #[tactic(auto, unfolding(crate::specs::Record::write_of))]
    fn encoder_write(self, port: bool) -> Result<Record, Refusal>
        ensures { result ≡ write_of port 1 self.channel self.register self.value }
    {
        listed((self.channel < 10) & (self.register == 0))?;
        fitting(
            self.value < 32,
            Record::WriteEncoder(self.channel as usize, self.value),
        )
    }

    #[tactic(auto, unfolding(crate::specs::Record::write_of))]
    fn pwm_write(self, port: bool) -> Result<Record, Refusal>
        ensures { result ≡ write_of port 2 self.channel self.register self.value }
    {
        listed((self.channel < 20) & (self.register < 4))?;
        fitting(
            pwm_range(self.register, self.value),
            Record::WritePwm(self.channel as usize, self.register as u64, self.value),
        )
    }

    #[tactic(auto, unfolding(crate::specs::Record::write_of))]
    fn i2c_write(self, port: bool) -> Result<Record, Refusal>
        ensures { result ≡ write_of port 3 self.channel self.register self.value }
    {
        listed((self.channel == 0) & (self.register < 3))?;
        fitting(
            i2c_range(self.register, self.value),
            Record::WriteI2c(self.register as u64, self.value),
        )
    }

    #[tactic(auto, unfolding(crate::specs::Record::write_of))]
    fn write(self, port: bool) -> Result<Record, Refusal>
        ensures { result ≡ write_of port self.block self.channel self.register self.value }
    {
        match self.block {
            0 => self.select_write(port),
            1 => self.encoder_write(port),
            2 => self.pwm_write(port),
            3 => self.i2c_write(port),
            _ => Err(Refusal::NoSuchRecord),
        }
    }

    #[tactic(auto, unfolding(crate::specs::Record::read_of))]
    fn read(self, answers: bool) -> Result<Record, Refusal>
        ensures { result ≡ read_of answers self.block self.channel self.register }
    {
        match self.block {
            0 => {
                listed((self.channel == 0) & (self.register == 0))?;
                Ok(Record::ReadSelect)
            }
            1 => {
                listed((self.channel < 10) & (self.register < 3))?;
                Ok(Record::ReadEncoder(self.channel as usize, self.register as u64))
            }
            2 => {
                listed((self.channel < 20) & (self.register < 6))?;
                Ok(Record::ReadPwm(self.channel as usize, self.register as u64))
            }
            3 => {
                let most = i2c_registers(answers);
                listed((self.channel == 0) & ((self.register != 2) & (self.register < most)))?;
                Ok(Record::ReadI2c(self.register as u64))
            }
            _ => Err(Refusal::NoSuchRecord),
        }
    }

    #[tactic(auto, unfolding(crate::specs::Record::pins_of))]
    fn pins(self) -> Result<Record, Refusal>
        ensures { result ≡ pins_of self.block self.channel self.register self.value }
    {
        listed((self.block == 1) & ((self.channel < 10) & (self.register == 0)))?;
        fitting(
            self.value < 4,
            Record::Pins(self.channel as usize, self.value),
        )
    }

    #[tactic(auto, unfolding(crate::specs::Record::ticks_of))]
    fn ticks(self) -> Result<Record, Refusal>
        ensures { result ≡ ticks_of self.block self.channel self.register self.bank self.value }
    {
        listed(
            (self.bank == 0) & ((self.block == 0) & ((self.channel == 0) & (self.register == 0))),
        )?;
        fitting(self.value < 4294967296, Record::Ticks(self.value))
    }

    #[tactic(auto, unfolding(crate::specs::Record::answer_of))]
    fn answer(self) -> Result<Record, Refusal>
        ensures { result ≡ answer_of self.block self.channel self.register self.value }
    {
        listed((self.block == 3) & ((self.channel == 0) & (self.register == 0)))?;
        fitting(self.value < 4, Record::Answer(self.value))
    }

    // What the fields name, in an edition that has a port and answers.
    #[tactic(auto, unfolding(crate::specs::Record::named_of))]
    pub fn named(self, port: bool, answers: bool) -> Result<Record, Refusal>
        ensures { result ≡ named_of port answers self.kind self.block self.channel self.register self.bank self.value }
    {
        match self.kind {
            1 => self.write(port),
            2 => {
                listed(self.value == 0)?;
                self.read(answers)
            }
            3 => self.pins(),
            4 => self.ticks(),
            5 => {
                listed(answers)?;
                self.answer()
            }
            _ => Err(Refusal::NoSuchRecord),
        }
    }
}
