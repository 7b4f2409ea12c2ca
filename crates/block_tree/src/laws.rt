ghost use Rattle.block_tree.specs.Regions.{SidesLaw, AreaLaw};
ghost use Rattle.block_tree.specs.Parts.{FivePartsLaw, EllPartsLaw};

/// The parts of a cut lie in the region, share no cell and leave none: the five blocks.
pub fn parts_of_five_tile()
    ensures { FivePartsLaw }
{}

/// The parts of a cut lie in the region, share no cell and leave none: the two L-regions of each of the
/// four cuts, with the second part moved, turned or mirrored.
pub fn parts_of_cuts_tile()
    ensures { EllPartsLaw }
{}

/// A region that is a rectangle holds exactly the cells of the rectangle of its sides.
pub fn sides_of_rectangles()
    ensures { SidesLaw }
{}

/// A region that is a rectangle has as many cells as the rectangle of its sides.
pub fn areas_of_rectangles()
    ensures { AreaLaw }
{}
