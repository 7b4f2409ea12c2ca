/// A move at the corner of a skyline: a lying case, a standing case, or no case there.
#[derive(Clone, Copy, PartialEq, Eq, Debug)]
pub enum Step {
    Lying,
    Standing,
    Waste,
}
