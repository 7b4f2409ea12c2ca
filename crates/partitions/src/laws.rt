ghost use Rattle.partitions.specs.Laws.{SameSidesIsReflexive, SameSidesIsSymmetric, SameSidesIsTransitive, SameSidesFitAlike, SameSidesShareMaximal};

/// To have the same sides is an equivalence of instances.
pub fn same_sides_is_an_equivalence()
    ensures reflexive { SameSidesIsReflexive }
    ensures symmetric { SameSidesIsSymmetric }
    ensures transitive { SameSidesIsTransitive }
{}

/// A case fits on the one of two instances with the same sides exactly where it fits on the other.
pub fn same_sides_fit_alike()
    ensures { SameSidesFitAlike }
{}

/// Instances with the same sides have the same maximal partitions of each side.
pub fn same_sides_share_maximal_partitions()
    ensures { SameSidesShareMaximal }
{}
