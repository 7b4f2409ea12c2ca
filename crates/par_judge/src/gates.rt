ghost use Rattle.std.specs.Prelude.{◌≤◌};

/// What is told of each entry before it is judged. It may wait, and answers nothing; it is shared by all workers.
pub trait Gate {
    /// The entry of this place, from 1, is about to be judged.
    fn enter(&self, place: u32)
        requires { 1 ≤ place };
}

/// A gate that lets each entry pass at once.
#[derive(Clone, Copy, Debug)]
pub struct OpenGate;

impl Gate for OpenGate {
    fn enter(&self, _place: u32) {}
}
