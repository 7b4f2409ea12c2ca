ghost use Rattle.cert_rules.specs.Refute.{RefutesBounds};
ghost use Rattle.cert_rules.specs.Tree.{MarksAreTrees};
ghost use Rattle.cert_rules.specs.Laws.{NextIsNormal, PathsPlaceLayouts, WalksRefute};

/// Marks that refute a number bound every layout, whatever the cells weigh.
pub fn refutes_bounds()
    ensures { RefutesBounds }
{}

/// Marks refute exactly where they are those of one tree that refutes the start.
pub fn marks_are_trees()
    ensures { MarksAreTrees }
{}

/// A walk that ends without one case more gives marks that refute.
pub fn walks_refute()
    ensures { WalksRefute }
{}

/// What a lawful path places is a layout.
pub fn paths_place_layouts()
    ensures { PathsPlaceLayouts }
{}

/// The moves go to the next normal places.
pub fn next_is_normal()
    ensures { NextIsNormal }
{}
