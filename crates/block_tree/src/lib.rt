//! Block trees: a pallet cut into blocks, each of them a grid of equal cases or cut again.
#![tactic(auto)]

mod checking;
mod counting;
mod drawing;
mod laws;
mod nodes;
mod parts;
mod regions;
mod sequences;
mod trees;

pub use counting::grid_cases;
pub use laws::{areas_of_rectangles, parts_of_cuts_tile, parts_of_five_tile, sides_of_rectangles};
pub use nodes::{Block, Node};
pub use parts::{Part, ell_parts, five_parts};
pub use regions::{Cut, Region, is_rectangle, rectangle, side_x, side_y};
pub use sequences::Sequence;
pub use trees::BlockTree;

#[cfg(test)]
mod tests {
    use crate::{
        Block, BlockTree, Cut, Node, Region, Sequence, ell_parts, five_parts, grid_cases,
        is_rectangle, rectangle, side_x, side_y,
    };
    use plan_geometry::{Inst, Layer, Spot, Way};
    use std::alloc::{AllocFailed, Global};
    use std::test::Fail;

    fn grid(region: Region, way: Way) -> Node {
        Node {
            region,
            block: Block::Grid { way },
        }
    }

    fn pair(alloc: Global, first: Node, second: Node) -> Result<Sequence<Node>, AllocFailed<Node>> {
        let mut nodes = Vec::new(alloc);
        nodes.push(first)?;
        nodes.push(second)?;
        Ok(Sequence::of(nodes))
    }

    fn spot(x: u32, y: u32, way: Way) -> Spot {
        Spot { x, y, way }
    }

    // The four cases round the middle of a 5 by 5 pallet.
    fn is_round(layer: &Layer) -> bool {
        layer.spots()
            == [
                spot(0, 0, Way::Lying),
                spot(3, 0, Way::Standing),
                spot(0, 2, Way::Standing),
                spot(2, 3, Way::Lying),
            ]
            .as_slice()
    }

    #[test]
    fn five_blocks(rt: HostRuntime) -> Result<(), Fail> {
        let inst = Inst::new(5, 5, 3, 2).ok_or("sides")?;
        let mut parts = Vec::new(rt.alloc());
        parts.push(grid(rectangle(3, 2), Way::Lying))?;
        parts.push(grid(rectangle(2, 3), Way::Standing))?;
        parts.push(grid(rectangle(2, 3), Way::Standing))?;
        parts.push(grid(rectangle(3, 2), Way::Lying))?;
        parts.push(Node {
            region: rectangle(1, 1),
            block: Block::Empty,
        })?;
        let root = Node {
            region: rectangle(5, 5),
            block: Block::Five {
                x1: 2,
                x2: 3,
                y1: 2,
                y2: 3,
                parts: Sequence::of(parts),
            },
        };
        let tree = BlockTree::new(inst, root).ok_or("no tree")?;
        assert_eq!(rt; tree.held(), 4);
        let layer = tree.draw(rt.alloc())?;
        assert!(rt; is_round(&layer));
        Ok(())
    }

    // The L-region L(3, big_y, 2, small_y), cut into a standing case and a lying one that is mirrored.
    fn ell(alloc: Global, big_y: u32, small_y: u32, h: u32) -> Result<Node, AllocFailed<Node>> {
        let standing = Region {
            big_x: 2,
            big_y: 3,
            small_x: 2,
            small_y: 0,
        };
        let lying = Region {
            big_x: 3,
            big_y: 2,
            small_x: 1,
            small_y: 2,
        };
        Ok(Node {
            region: Region {
                big_x: 3,
                big_y,
                small_x: 2,
                small_y,
            },
            block: Block::Ell {
                cut: Cut::K3 { d: 2, h },
                parts: pair(
                    alloc,
                    grid(standing, Way::Standing),
                    grid(lying, Way::Lying),
                )?,
            },
        })
    }

    #[test]
    fn turned_and_mirrored(rt: HostRuntime) -> Result<(), Fail> {
        let inst = Inst::new(5, 5, 3, 2).ok_or("sides")?;
        let first = ell(rt.alloc(), 5, 2, 2)?;
        let second = ell(rt.alloc(), 5, 3, 2)?;
        let root = Node {
            region: rectangle(5, 5),
            block: Block::Ell {
                cut: Cut::K1 {
                    x1: 2,
                    x2: 3,
                    y1: 2,
                },
                parts: pair(rt.alloc(), first, second)?,
            },
        };
        let tree = BlockTree::new(inst, root).ok_or("no tree")?;
        assert_eq!(rt; tree.held(), 4);
        let layer = tree.draw(rt.alloc())?;
        assert!(rt; is_round(&layer));
        Ok(())
    }

    #[test]
    fn sides_and_parts(rt: HostRuntime) -> Result<(), Fail> {
        let inst = Inst::new(5, 5, 3, 2).ok_or("sides")?;
        assert_eq!(rt; grid_cases(inst, Way::Standing, 5, 5), 2);
        let low = Region {
            big_x: 7,
            big_y: 5,
            small_x: 0,
            small_y: 3,
        };
        assert!(rt; is_rectangle(low));
        assert_eq!(rt; (side_x(low), side_y(low)), (7, 3));
        assert_eq!(rt; five_parts(5, 5, 2, 3, 2, 3)[4].at_y, 2);
        let halves = ell_parts(
            rectangle(5, 5),
            Cut::K1 {
                x1: 2,
                x2: 3,
                y1: 2,
            },
        );
        assert!(rt; halves[1].flip_x && halves[1].flip_y);
        Ok(())
    }

    #[test]
    fn refused(rt: HostRuntime) -> Result<(), Fail> {
        let inst = Inst::new(5, 5, 2, 2).ok_or("sides")?;
        assert!(rt; BlockTree::new(inst, grid(rectangle(5, 5), Way::Standing)).is_none());
        Ok(())
    }
}
