// Which records change nothing: the rule, record by record, with each encoder's previous pins.
#![tactic(auto)]

ghost use Rattle.std.specs.Prelude.{◌≡◌, length};
ghost use Rattle.event.specs.declared.Event.{Event};
ghost use Rattle.shrink_rule.specs.How.{GoodEvent, forgotten, drops_by, met_by};

use event::Event;

// What is remembered is each encoder's previous pins, where no write to its CNFG or its SELECT lies between.

// A write to a bank's SELECT.
fn forget(last: &mut [Option<u8>; 20], bank: usize)
    requires { length last.old ≡ 20 }
    ensures { last.new ≡ forgotten bank last.old }
{
    // by number: an iterator over numbers and pins was tried, and its proof did not close
    for e in 0..20 {
        if e / 10 == bank {
            last[e] = None;
        }
    }
}

// Whether a record is dropped; one that stays is remembered.
pub fn drops(last: &mut [Option<u8>; 20], event: Event) -> bool
    requires last_len { length last.old ≡ 20 }
    requires good_event { GoodEvent event }
    ensures value { result ≡ drops_by last.old event }
    ensures last_after { last.new ≡ met_by last.old event }
{
    match event {
        Event::Wait(ticks) => ticks == 0,
        Event::Pins { encoder, value } => {
            let pins = value as u8;
            if last[encoder] == Some(pins) {
                return true;
            }
            last[encoder] = Some(pins);
            false
        }
        Event::Config { encoder, .. } => {
            last[encoder] = None;
            false
        }
        Event::Select { bank, .. } => {
            forget(last, bank);
            false
        }
        Event::Other => false,
    }
}
