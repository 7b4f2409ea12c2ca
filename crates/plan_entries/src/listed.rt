ghost use Rattle.std.specs.Prelude.{◌≡◌};

use layer_symmetry::Move;
use plan_geometry::Spot;
use std::marker::Model;

/// The cases of a listed layer. Contracts see it as the list.
#[derive(Drop)]
pub struct Spots {
    spots: Vec<Spot>,
}

impl Model for Spots {
    ghost use Rattle.std.specs.Prelude.{List};
    ghost use Rattle.plan_geometry.specs.declared.spots.Spot.{Spot};

    ghost Value = { List Spot };

    ghost view = { λ a. a.spots.items };
}

impl Spots {
    /// These cases, in this order.
    pub fn new(spots: Vec<Spot>) -> Spots
        ensures { result ≡ spots.items }
    {
        Spots { spots }
    }

    /// The cases as a slice.
    pub fn as_slice(&self) -> &[Spot]
        ensures { result.now ≡ self.now }
    {
        self.spots.as_slice()
    }
}

/// A layer of a report: the move that brings the first layer to it, and its cases on the order's own pallet.
#[derive(Drop)]
pub struct Listed {
    pub turn: Move,
    pub spots: Spots,
}

/// The listed layers of a plan. Contracts see it as the list.
#[derive(Drop)]
pub struct Layers {
    layers: Vec<Listed>,
}

impl Model for Layers {
    ghost use Rattle.std.specs.Prelude.{List};
    ghost use Rattle.plan_entries.specs.declared.listed.Listed.{Listed};

    ghost Value = { List Listed };

    ghost view = { λ a. a.layers.items };
}

impl Layers {
    /// These layers, in this order.
    pub fn new(layers: Vec<Listed>) -> Layers
        ensures { result ≡ layers.items }
    {
        Layers { layers }
    }

    /// The layers as a slice.
    pub fn as_slice(&self) -> &[Listed]
        ensures { result.now ≡ self.now }
    {
        self.layers.as_slice()
    }
}
