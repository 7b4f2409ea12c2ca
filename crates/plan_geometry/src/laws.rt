ghost use Rattle.plan_geometry.specs.Laws.{FewerAreAdmitted, CasesWeighAtMostTheTotal, OneOrder};

/// A part of a layout is a layout, so fewer cases than an admitted number are admitted too.
pub fn fewer_are_admitted()
    ensures { FewerAreAdmitted }
{}

/// Whatever the cells weigh, the cases of a layout weigh at most as much as the whole pallet: no cell is
/// counted twice.
pub fn cases_weigh_at_most_the_total()
    ensures { CasesWeighAtMostTheTotal }
{}

/// The cases of a layer have one order of y, then x: two lists in order with the same cases are one list.
pub fn one_order()
    ensures { OneOrder }
{}
