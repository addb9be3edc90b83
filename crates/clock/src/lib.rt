// The bit clock: the time elapsed between two readings of it, and the time that is left. Nothing here knows a setting.
// Assumes nothing.
#![tactic(auto)]

ghost use Rattle.std.specs.Prelude.{◌≡◌};
ghost use Rattle.clock.specs.Clock.{time_left};
ghost use Rattle.clock.specs.Clock.{elapsed as clock_elapsed};

// A number of bit times, and a reading of the bit clock.
#[derive(Clone, Copy, Debug, PartialEq, Eq)]
pub struct BitTime(pub u32);

// Later minus earlier on the 32-bit bit clock.
#[tactic(auto, unfolding(crate::specs::Clock::elapsed))]
pub fn elapsed(later: BitTime, earlier: BitTime) -> BitTime
    ensures { result.0 ≡ clock_elapsed later.0 earlier.0 }
{
    BitTime(later.0.wrapping_sub(earlier.0))
}

// Whether time is left: the time elapsed since an acceptance is below TTR.
#[tactic(auto, unfolding(choice::specs::Choice::less, crate::specs::Clock::time_left))]
pub fn time_left(clock: BitTime, acceptance: BitTime, ttr: BitTime) -> bool
    ensures { result ≡ time_left clock.0 acceptance.0 ttr.0 }
{
    elapsed(clock, acceptance).0 < ttr.0
}
