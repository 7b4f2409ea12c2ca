ghost use Rattle.std.specs.Prelude.{◌≤◌};

/// At most so many pairs of cuts along x, each with a pair along y, are looked at.
pub const CUTS_LOOKED_AT: u32 = 300_000;

/// At most so many layers of the count that is asked for are tested.
pub const LAYERS_TESTED: u32 = 4_000;

/// The number of layers tested, times the square of their count of cases, is at most this, since the time of a
/// test grows with the pairs of cases; but one layer is tested in any case.
pub const PAIRS_TESTED: u32 = 4_000_000;

/// How many pairs of cuts are left to look at, and how many layers to test.
#[derive(Clone, Copy, PartialEq, Eq, Debug)]
pub struct Effort {
    cuts: u32,
    layers: u32,
}

impl Effort {
    /// The whole effort for layers of so many cases.
    pub fn new(count: u32) -> Effort
        requires some { 1 ≤ count }
        requires few { count ≤ 1000 }
    {
        Effort {
            cuts: CUTS_LOOKED_AT,
            layers: LAYERS_TESTED.min(PAIRS_TESTED / (count * count)).max(1),
        }
    }

    /// Whether nothing more may be looked at, or tested.
    pub fn is_spent(&self) -> bool {
        self.cuts == 0 || self.layers == 0
    }

    /// One pair of cuts along x is looked at with one along y.
    pub fn look(&mut self) {
        self.cuts = self.cuts.saturating_sub(1);
    }

    /// One layer is tested.
    pub fn test(&mut self) {
        self.layers = self.layers.saturating_sub(1);
    }
}
