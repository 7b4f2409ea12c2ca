ghost use Rattle.minimum_size.specs.Reduced.{HasOneReduced, SameSidesHaveSmallAreas};

/// An instance has one reduced instance.
pub fn one_reduced_instance()
    ensures { HasOneReduced }
{}

/// Where a case fits, an instance with the same sides has an area bound below four times the given one.
pub fn same_sides_have_small_areas()
    ensures { SameSidesHaveSmallAreas }
{}
