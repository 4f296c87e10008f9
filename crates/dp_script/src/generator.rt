//! Numbers that are drawn one after another.
ghost use Rattle.std.specs.Prelude.{◌≡◌};
ghost use Rattle.dp_script.specs.{drawn, number_of};

/// A linear congruential generator of 64 bits, which gives the upper 31.
#[derive(Drop)]
pub(crate) struct Generator {
    pub state: u64,
}

/// The state after one draw.
#[tactic(auto, unfolding(crate::specs::Generator::drawn))]
fn drawn(state: u64) -> u64
    ensures { result ≡ drawn state }
{
    state
        .wrapping_mul(6_364_136_223_846_793_005)
        .wrapping_add(1_442_695_040_888_963_407)
}

/// The number that a state gives.
#[tactic(auto, unfolding(crate::specs::Generator::number_of))]
fn number_of(state: u64) -> u64
    ensures { result ≡ number_of state }
{
    state >> 33
}

impl Generator {
    /// The next number, below 2^31.
    pub(crate) fn draw(&mut self) -> u64
        ensures state { self.new.state ≡ drawn self.old.state }
        ensures number { result ≡ number_of (drawn self.old.state) }
    {
        self.state = drawn(self.state);
        number_of(self.state)
    }
}
