// Numbers that look random and are the same each time.
ghost use Rattle.std.specs.Prelude.{◌≡◌, ◌<◌, ◌≤◌};
ghost use Rattle.made_orders.specs.Draws.{next_state, given_by};

// Knuth's multiplier and increment for MMIX.
const MULTIPLIER: u64 = 6364136223846793005;

const INCREMENT: u64 = 1442695040888963407;

/// A linear congruential generator modulo 2^64.
#[derive(Drop)]
pub struct Generator {
    pub state: u64,
}

impl Generator {
    /// A number below `below`: the state moves, and then gives its upper 31 bits.
    #[tactic(auto, unfolding(crate::specs::Draws::next_state, crate::specs::Draws::given_by))]
    pub fn draw(&mut self, below: u32) -> u32
        requires { 1 ≤ below }
        ensures state { self.new.state ≡ next_state self.old.state }
        ensures number { result ≡ given_by self.new.state below }
        ensures less { result < below }
    {
        self.state = self.state.wrapping_mul(MULTIPLIER).wrapping_add(INCREMENT);
        (self.state >> 33) as u32 % below
    }
}
