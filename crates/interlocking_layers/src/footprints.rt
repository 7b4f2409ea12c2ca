ghost use Rattle.contact_rules.specs.Real.{IsGapOf};
ghost use Rattle.interlocking_layers.specs.Wanted.{IsLawfulSearch};

use crate::wanted::Wanted;
use contact_rules::Rule;
use layer_symmetry::{Move, moves};
use plan_geometry::{Axis, Inst, Spot, extent_along, side_along};
use plan_memory::Memory;
use std::alloc::Global;

/// The cells that a real case covers: from `left` up to `right` along x, and from `near` up to `far` along y.
#[derive(Clone, Copy, PartialEq, Eq, Debug)]
struct Footprint {
    left: u32,
    right: u32,
    near: u32,
    far: u32,
}

impl Footprint {
    fn of(inst: Inst, gap: u32, s: Spot) -> Footprint
        requires { IsGapOf inst gap }
    {
        Footprint {
            left: s.x,
            right: s.x.saturating_add(extent_along(Axis::X, inst, s.way) - gap),
            near: s.y,
            far: s.y.saturating_add(extent_along(Axis::Y, inst, s.way) - gap),
        }
    }

    fn mirrored_x(self, side: u32) -> Footprint {
        Footprint {
            left: side.saturating_sub(self.right),
            right: side.saturating_sub(self.left),
            near: self.near,
            far: self.far,
        }
    }

    fn exchanged(self) -> Footprint {
        Footprint {
            left: self.near,
            right: self.far,
            near: self.left,
            far: self.right,
        }
    }

    fn mirrored_y(self, side: u32) -> Footprint {
        self.exchanged().mirrored_x(side).exchanged()
    }

    // Where a move brings it on a pallet of these real sides.
    fn moved(self, way: Move, side_x: u32, side_y: u32) -> Footprint {
        match way {
            Move::Same => self,
            Move::MirrorX => self.mirrored_x(side_x),
            Move::MirrorY => self.mirrored_y(side_y),
            Move::HalfTurn => self.mirrored_x(side_x).mirrored_y(side_y),
            Move::Diagonal => self.exchanged(),
            Move::Anti => self.exchanged().mirrored_x(side_x).mirrored_y(side_y),
            Move::Left => self.exchanged().mirrored_x(side_x),
            Move::Right => self.exchanged().mirrored_y(side_y),
        }
    }

    // The area that it shares with another; the product of two lengths of 32 bits does not wrap.
    fn shared(&self, other: &Footprint) -> u64 {
        let along_x = self
            .right
            .min(other.right)
            .saturating_sub(self.left.max(other.left));
        let along_y = self
            .far
            .min(other.far)
            .saturating_sub(self.near.max(other.near));
        u64::from(along_x).wrapping_mul(u64::from(along_y))
    }

    // The area that it shares with all of a layer, which wraps for no layout.
    fn contact(&self, lower: &[Footprint]) -> u64 {
        let mut total: u64 = 0;
        for other in lower {
            total = total.wrapping_add(self.shared(other));
        }
        total
    }

    // Whether, upon a layer, it keeps a rule on contact or on support.
    fn keeps(&self, rule: Rule, lower: &[Footprint]) -> bool {
        match rule {
            Rule::Contact(percent) => {
                let wanted = self.shared(self).saturating_mul(u64::from(percent));
                wanted <= self.contact(lower).saturating_mul(100)
            }
            Rule::Support => 2 <= lower.iter().filter(|other| self.shared(other) > 0).count(),
            Rule::Cut(_) => true,
        }
    }
}

fn footprints(alloc: Global, inst: Inst, gap: u32, spots: &[Spot]) -> Result<Vec<Footprint>, Memory>
    requires { IsGapOf inst gap }
{
    let mut footprints = Vec::with_capacity(alloc, spots.len())?;
    for s in spots {
        footprints.push(Footprint::of(inst, gap, *s))?;
    }
    Ok(footprints)
}

// Whether each case of the moved layer keeps all rules upon the layer.
fn may_go_upon(rules: &[Rule], layer: &[Footprint], way: Move, side_x: u32, side_y: u32) -> bool {
    for case in layer {
        let upper = case.moved(way, side_x, side_y);
        if !rules.iter().all(|rule| upper.keeps(*rule, layer)) {
            return false;
        }
    }
    true
}

/// Whether one of the forms of a layer of these cases goes upon it, so far as the rules on contact and on
/// support tell. Most candidates fail here, before a layer is made of them and of each form; nothing else
/// rests on the answer, since those that pass are tested as layers.
pub fn may_interlock(alloc: Global, wanted: &Wanted<'_>, spots: &[Spot]) -> Result<bool, Memory>
    requires { IsLawfulSearch wanted.now }
{
    let layer = footprints(alloc, wanted.inst, wanted.gap, spots)?;
    let side_x = side_along(Axis::X, wanted.inst) - wanted.gap;
    let side_y = side_along(Axis::Y, wanted.inst) - wanted.gap;
    for way in moves(wanted.inst).as_slice() {
        if may_go_upon(wanted.rules, layer.as_slice(), *way, side_x, side_y) {
            return Ok(true);
        }
    }
    Ok(false)
}
