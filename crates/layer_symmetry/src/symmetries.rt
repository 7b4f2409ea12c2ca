ghost use Rattle.std.specs.Prelude.{◌≡◌, ◌≢◌, MatchOption, Some, All};
ghost use Rattle.layer_symmetry.specs.Moves.{KeepsLayouts, lawful_moves, move_name};

use arrayvec::ArrayVec;
use plan_geometry::Inst;
use std::fmt;

/// A move that brings a pallet onto itself: a mirroring or a turn. The last four exchange the directions
/// x and y, so they bring a square pallet alone onto itself.
#[derive(Clone, Copy, PartialEq, Eq, Debug, Default)]
pub enum Move {
    #[default]
    Same,
    MirrorX,
    MirrorY,
    HalfTurn,
    Diagonal,
    Anti,
    Left,
    Right,
}

impl Move {
    /// The name by which the move is printed.
    pub fn name(self) -> &'static str
        ensures { result.now ≡ move_name self }
    {
        match self {
            Move::Same => "same",
            Move::MirrorX => "mirror-x",
            Move::MirrorY => "mirror-y",
            Move::HalfTurn => "half-turn",
            Move::Diagonal => "diagonal",
            Move::Anti => "anti",
            Move::Left => "left",
            Move::Right => "right",
        }
    }

    /// The move of this name; None exactly where no move has it.
    pub fn of_name(name: &[u8]) -> Option<Move>
        ensures { MatchOption result
            ((m : Move) → move_name m ≢ name.now)
            (λ m. move_name m ≡ name.now) }
    {
        if name == b"same".as_slice() {
            Some(Move::Same)
        } else if name == b"mirror-x".as_slice() {
            Some(Move::MirrorX)
        } else if name == b"mirror-y".as_slice() {
            Some(Move::MirrorY)
        } else if name == b"half-turn".as_slice() {
            Some(Move::HalfTurn)
        } else if name == b"diagonal".as_slice() {
            Some(Move::Diagonal)
        } else if name == b"anti".as_slice() {
            Some(Move::Anti)
        } else if name == b"left".as_slice() {
            Some(Move::Left)
        } else if name == b"right".as_slice() {
            Some(Move::Right)
        } else {
            None
        }
    }
}

impl fmt::Display for Move {
    ghost output = { λ m. Some (move_name m) };

    fn fmt<W: fmt::Write>(&self, f: &mut fmt::Formatter<W>) -> fmt::Result {
        f.write_str(self.name())
    }
}

/// The lawful moves, in order. Each brings every layout to a layout of as many cases.
pub fn moves(inst: Inst) -> ArrayVec<Move, 8>
    ensures lawful { result.items ≡ lawful_moves inst }
    ensures layouts { All (KeepsLayouts inst) result.items }
{
    let mut moves = ArrayVec::new();
    moves.push(Move::Same);
    moves.push(Move::MirrorX);
    moves.push(Move::MirrorY);
    moves.push(Move::HalfTurn);
    if inst.l_side == inst.w_side {
        moves.push(Move::Diagonal);
        moves.push(Move::Anti);
        moves.push(Move::Left);
        moves.push(Move::Right);
    }
    moves
}
