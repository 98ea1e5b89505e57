// The clock's seven dividers, which PWM and SPI share.
#![tactic(auto)]

ghost use Rattle.std.specs.Prelude.{◌≡◌, ◌≤◌, MatchOption};
ghost use Rattle.divider.specs.Divider.{divider_of};

const DIVIDERS: [u8; 7] = [1, 2, 4, 8, 16, 32, 64];

// What a choice divides the clock by, if it names a divider.
pub fn divider(choice: u64) -> Option<u64>
    ensures { MatchOption result (divider_of choice ≡ 0) (λ n. (n ≡ divider_of choice) × (1 ≤ n) × (n ≤ 64)) }
{
    match choice {
        1..=7 => Some(u64::from(DIVIDERS[choice as usize - 1])),
        _ => None,
    }
}
