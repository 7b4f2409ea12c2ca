ghost use Rattle.std.specs.Prelude.{◌≡◌};
ghost use Rattle.texts.specs.declared.stops.Stop.TheVariants as stops;
ghost use Rattle.texts.specs.declared.stops.LineStop.TheVariants as line_stops;

use plan_memory::Memory;
use std::alloc::{AllocError, AllocFailed};

/// Why a reader of lines stopped.
#[derive(Clone, Copy, PartialEq, Eq, Debug)]
pub enum Stop {
    /// Memory was refused.
    Memory,
    /// At a fault, before which so many lines with an end were left.
    Left(usize),
}

/// A fault, before which so many lines with an end were left: why a reader of lines that needs no memory stopped.
#[derive(Clone, Copy, PartialEq, Eq, Debug)]
pub struct LinesLeft {
    pub count: usize,
}

/// Why a reader of one line stopped.
#[derive(Clone, Copy, PartialEq, Eq, Debug)]
pub enum LineStop {
    /// Memory was refused.
    Memory,
    /// The line is none of those that are read.
    Fault,
}

impl From<AllocError> for Stop {
    ghost from_gives = { λ _ e. e ≡ stops.Memory };

    fn from(_error: AllocError) -> Stop {
        Stop::Memory
    }
}

impl<T: Drop> From<AllocFailed<T>> for Stop {
    ghost from_gives = { λ _ e. e ≡ stops.Memory };

    fn from(_error: AllocFailed<T>) -> Stop {
        Stop::Memory
    }
}

impl From<Memory> for Stop {
    ghost from_gives = { λ _ e. e ≡ stops.Memory };

    fn from(_error: Memory) -> Stop {
        Stop::Memory
    }
}

impl From<LinesLeft> for Stop {
    ghost from_gives = { λ l e. e ≡ stops.Left l.count };

    fn from(fault: LinesLeft) -> Stop {
        Stop::Left(fault.count)
    }
}

impl From<AllocError> for LineStop {
    ghost from_gives = { λ _ e. e ≡ line_stops.Memory };

    fn from(_error: AllocError) -> LineStop {
        LineStop::Memory
    }
}

impl<T: Drop> From<AllocFailed<T>> for LineStop {
    ghost from_gives = { λ _ e. e ≡ line_stops.Memory };

    fn from(_error: AllocFailed<T>) -> LineStop {
        LineStop::Memory
    }
}
