use crate::regions::{Cut, Region};
use crate::sequences::Sequence;
use plan_geometry::Way;

/// What fills a region: nothing, a grid of cases of one way, five blocks, or two L-regions.
#[cycle(blocks)]
#[derive(Debug, Drop)]
pub enum Block {
    Empty,
    Grid {
        way: Way,
    },
    Five {
        x1: u32,
        x2: u32,
        y1: u32,
        y2: u32,
        parts: Sequence<Node>,
    },
    Ell {
        cut: Cut,
        parts: Sequence<Node>,
    },
}

/// A region, and what fills it.
#[cycle(blocks)]
#[derive(Debug, Drop)]
pub struct Node {
    pub region: Region,
    pub block: Block,
}
