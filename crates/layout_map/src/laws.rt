ghost use Rattle.layout_map.specs.Laws.{ChainMapKeepsLayouts, ChainMapExists, ChainMapIsOne, ChainMapIsNormal, SameSidesAdmitAlike, SameSidesBoundAlike, LayoutsHaveNormalForm, ChainsAreLists};

/// The chain map of a layout onto an instance with the same sides is a layout.
pub fn chain_map_is_a_layout()
    ensures { ChainMapKeepsLayouts }
{}

/// Every list of cases has a chain map.
pub fn chain_map_exists()
    ensures { ChainMapExists }
{}

/// A list of cases has one chain map.
pub fn chain_map_is_one()
    ensures { ChainMapIsOne }
{}

/// Onto the same instance a layout comes to normal places.
pub fn chain_map_is_normal()
    ensures { ChainMapIsNormal }
{}

/// Instances with the same sides admit the same numbers of cases.
pub fn same_sides_admit_alike()
    ensures { SameSidesAdmitAlike }
{}

/// A bound of one instance is a bound of every instance with the same sides.
pub fn same_sides_bound_alike()
    ensures { SameSidesBoundAlike }
{}

/// Every layout can be moved to one of the same count whose places are all normal.
pub fn layouts_have_a_normal_form()
    ensures { LayoutsHaveNormalForm }
{}

/// The totals of chains are those of lists of cases, each of which ends at or before the next begins.
pub fn chains_are_lists()
    ensures { ChainsAreLists }
{}
