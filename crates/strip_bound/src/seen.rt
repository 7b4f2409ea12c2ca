ghost use Rattle.std.specs.Prelude.{◌≡◌, ℕ, ◌⊎◌, Some, IsTrue};
ghost use Rattle.strip_bound.specs.Kept.{IsSeen};

// How many short sides less the pairs of partitions so many long sides apart had, of those whose cuts are listed: at
// one distance there are no more than two such numbers.
#[derive(Clone, Copy)]
pub(crate) struct Seen {
    pub(crate) first: Option<u32>,
    pub(crate) second: Option<u32>,
}

// No pair is listed.
pub(crate) const NOTHING: Seen = Seen {
    first: None,
    second: None,
};

impl Seen {
    // Whether a pair with this number is listed.
    pub(crate) fn has(self, a: u32) -> bool
        ensures { IsTrue result → IsSeen a self }
    {
        self.first == Some(a) || self.second == Some(a)
    }

    // The numbers with one more.
    pub(crate) fn with(self, a: u32) -> Seen
        ensures { (b : ℕ) → IsSeen b result → IsSeen b self ⊎ (b ≡ a) }
    {
        match self.first {
            None => Seen {
                first: Some(a),
                second: self.second,
            },
            Some(first) => Seen {
                first: Some(first),
                second: Some(a),
            },
        }
    }
}
