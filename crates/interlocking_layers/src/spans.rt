ghost use Rattle.std.specs.Prelude.{◌+◌, ◌≤◌};
ghost use Rattle.interlocking_layers.specs.Small.{IsSpan};

use plan_geometry::Inst;

/// Where in a span a row of cases stands.
#[derive(Clone, Copy, PartialEq, Eq, Debug)]
pub enum End {
    Low,
    Middle,
    High,
}

/// What a block has of one side of the pallet: where it begins, its length, where in it the cases stand, and
/// how many of them fit one after another with their long sides, or with their short sides, along it.
#[derive(Clone, Copy, PartialEq, Eq, Debug)]
pub struct Span {
    pub start: u32,
    pub length: u32,
    pub end: End,
    pub longs: u32,
    pub shorts: u32,
    pub ghost small: { IsSpan start length longs shorts },
}

impl Span {
    /// The span from `start` on.
    pub fn new(inst: Inst, start: u32, length: u32, end: End) -> Span
        requires start { start ≤ 4000 }
        requires length { length ≤ 4000 }
    {
        Span {
            start,
            length,
            end,
            longs: length / inst.long,
            shorts: length / inst.short,
        }
    }

    /// Where a row of cases that takes so much of the span begins.
    pub fn first(&self, taken: u32) -> u32
        ensures { result ≤ 8000 }
    {
        let free = self.length.saturating_sub(taken);
        let before = match self.end {
            End::Low => 0,
            End::Middle => free / 2,
            End::High => free,
        };
        self.start + before
    }
}
