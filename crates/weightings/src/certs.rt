ghost use Rattle.std.specs.Prelude.{◌≡◌};

use crate::kinds::Weighting;
use std::marker::Model;

/// A mark of a corner tree: what the walk does at a state.
#[derive(Clone, Copy, PartialEq, Eq, Debug)]
pub enum Mark {
    /// The state's moves are all gone through: the marks of the states after them follow, in their order.
    Branch,
    /// The state needs no further look: the cells that are left weigh too little for more cases than the bound.
    Leaf,
}

/// The marks of a corner tree in preorder.
#[derive(Debug, Drop)]
pub struct Marks {
    marks: Vec<Mark>,
}

impl Model for Marks {
    ghost use Rattle.std.specs.Prelude.{List};
    ghost use Rattle.weightings.specs.declared.certs.Mark.{Mark};

    ghost Value = { List Mark };

    ghost view = { λ a. a.marks.items };
}

impl Marks {
    /// These marks, in this order.
    pub fn new(marks: Vec<Mark>) -> Marks
        ensures { result ≡ marks.items }
    {
        Marks { marks }
    }

    /// The marks as a slice.
    pub fn as_slice(&self) -> &[Mark]
        ensures { result.now ≡ self.now }
    {
        self.marks.as_slice()
    }
}

/// A cut of a strip certificate, which excludes pairs of numbers of lying and standing cases that no layout has.
#[derive(Clone, Copy, PartialEq, Eq, Debug)]
pub enum StripCut {
    /// By the area: the pairs of more cases than the area bound of the instance.
    Area,
    /// By the unit lines along x, of which there are as many as the pallet's y side is long. On each line that crosses
    /// it a case counts `a` where its long side lies along x, and `b` where its short side does. `q` is to be the
    /// greatest a * i + b * j over the ways to have i long and j short case sides one after another on the pallet's x
    /// side, so no line counts more. The pairs that over all lines count more than `q` times as many as there are.
    X { a: u32, b: u32, q: u64 },
    /// By the unit lines along y, of which there are as many as the pallet's x side is long: the same with x and y
    /// exchanged.
    Y { a: u32, b: u32, q: u64 },
}

/// The cuts of a strip certificate, one for each number of lying cases from 0 on, up to one more than the bound.
#[derive(Debug, Drop)]
pub struct StripCert {
    cuts: Vec<StripCut>,
}

impl Model for StripCert {
    ghost use Rattle.std.specs.Prelude.{List};
    ghost use Rattle.weightings.specs.declared.certs.StripCut.{StripCut};

    ghost Value = { List StripCut };

    ghost view = { λ a. a.cuts.items };
}

impl StripCert {
    /// These cuts, in this order.
    pub fn new(cuts: Vec<StripCut>) -> StripCert
        ensures { result ≡ cuts.items }
    {
        StripCert { cuts }
    }

    /// The cuts as a slice.
    pub fn cuts(&self) -> &[StripCut]
        ensures { result.now ≡ self.now }
    {
        self.cuts.as_slice()
    }
}

/// A certificate that no layout has more than so many cases: a weighting with the marks of a corner tree, the cuts
/// of a strip, or the area of the given instance.
#[derive(Debug, Drop)]
pub enum Cert {
    /// By the weights of the cells, and the marks of a tree that refutes more cases than the bound: a single leaf where
    /// the weights alone show it.
    Weighted { weighting: Weighting, tree: Marks },
    /// By a cut for each pair of numbers of lying and standing cases that are together one more than the bound.
    Strip(StripCert),
    /// By the area bound of the instance as it was given, not reduced.
    GivenArea,
}
