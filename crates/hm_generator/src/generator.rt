//! A linear congruential generator of 64 bits, of which the upper 32 are drawn.
ghost use Rattle.std.specs.Prelude.{◌≡◌};
ghost use Rattle.hm_generator.specs.Generated.{high_half, next_state};

/// What a state is multiplied by.
const MULTIPLIER: u64 = 6364136223846793005;

/// What is added then. It is odd, and the multiplier is one above a multiple of 4, so all 2^64 states come in turn.
const INCREMENT: u64 = 1442695040888963407;

/// The state that was drawn from last.
#[derive(Debug, Drop)]
pub struct Generator {
    pub state: u64,
}

impl Generator {
    /// Goes on to the next state, and draws its upper half.
    pub fn next(&mut self) -> u32
        ensures state { self.new.state ≡ next_state self.old.state }
        ensures drawn { result ≡ high_half self.new.state }
    {
        self.state = MULTIPLIER.wrapping_mul(self.state).wrapping_add(INCREMENT);
        // The lower a bit of the state, the sooner it repeats, so the lower half is not drawn.
        (self.state >> 32) as u32
    }
}
