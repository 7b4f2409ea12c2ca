// Sources and sinks, by what their calls did.
ghost use Rattle.std.specs.Prelude.{◌≡◌};
ghost use Rattle.std.specs.Io.{ReadsAtMost};
ghost use Rattle.plan_io.specs.Streams.{Intake, Outlet, after_read, after_write, is_end, TakesSome};

/// A read or a write did not work: no byte passed, and the count of faults rose.
#[derive(Clone, Copy, Debug, PartialEq, Eq)]
pub struct Failed;

/// Gives bytes until its input ends.
pub trait Source {
    /// The bytes that its calls gave so far, whether the last one found the end of input, and how many failed. The count
    /// stays at its last value, 2^64 - 1.
    ghost past: { Self → Intake };

    /// Puts the next bytes into a place, and answers how many: at most the place's length. None, into a place that is
    /// not empty, is the end of input.
    fn read(&mut self, into: &mut [u8]) -> Result<usize, Failed>
        ensures bound { ReadsAtMost result into.new }
        ensures past { past self.new ≡ after_read (past self.old) into.new result };
}

/// Takes bytes.
pub trait Sink {
    /// The bytes that its calls took so far, and how many calls failed. The count stays at its last value, 2^64 - 1.
    ghost past: { Self → Outlet };

    /// Takes the first bytes of a piece, and answers how many: at least one of a piece that is not empty.
    fn write(&mut self, piece: &[u8]) -> Result<usize, Failed>
        ensures bound { TakesSome result piece.now }
        ensures past { past self.new ≡ after_write (past self.old) piece.now result };
}

// Whether a read that answered so many bytes found the end of input.
pub(crate) fn is_end(count: usize, place: &[u8]) -> bool
    ensures { result ≡ is_end count place.now }
{
    count == 0 && !place.is_empty()
}
