/// The two patterns of blocks: five, or the four outer ones round a centre that is left empty.
#[derive(Clone, Copy, PartialEq, Eq, Debug)]
pub enum Pattern {
    Five,
    Four,
}
