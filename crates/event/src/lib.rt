// What a record says of time and of encoders, by its bytes alone. The rules that go over applied records see a record by this function.
#![tactic(auto)]

ghost use Rattle.std.specs.Prelude.{◌≡◌, ◌+◌, ◌≤◌, length, take, drop};
ghost use Rattle.event.specs.Event.{event_by, event_of};

// Ticks, an encoder's pins, a write to an encoder's CNFG, a write to a bank's SELECT, or another. Encoder i of bank k has number 10 k + i.
#[derive(Clone, Copy)]
pub enum Event {
    Wait(u64),
    Pins { encoder: usize, value: u64 },
    Config { encoder: usize, value: u64 },
    Select { bank: usize, value: u64 },
    Other,
}

#[tactic(auto, unfolding(crate::specs::Event::event_by))]
fn event_by(kind: u8, block: u8, encoder: usize, bank: usize, value: u64) -> Event
    ensures { result ≡ event_by kind block encoder bank value }
{
    match kind {
        1 => match block {
            0 => Event::Select { bank, value },
            1 => Event::Config { encoder, value },
            _ => Event::Other,
        },
        3 => Event::Pins { encoder, value },
        4 => Event::Wait(value),
        _ => Event::Other,
    }
}

// The record that starts at a place.
#[tactic(auto, using(crate::proofs::Laws::event_there))]
pub fn event_at(log: &[u8], at: usize) -> Event
    requires { at + 16 ≤ length log.now }
    ensures { result ≡ event_of (take 16 (drop at log.now)) }
{
    let bank = usize::from(log[at + 4]);
    let channel = usize::from(log[at + 2]);
    let value = numbers::le64(log, at + 8);
    event_by(log[at], log[at + 1], 10 * bank + channel, bank, value)
}
