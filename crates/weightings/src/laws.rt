ghost use Rattle.weightings.specs.Laws.{MembersAreListed, LeadIsFirstLeast};

/// A weighting is a member of the family of an instance exactly where it stands in the list of the family: the area,
/// a colour mod a side of the case, or a comb of two sides of the case, but never a table.
pub fn members_are_listed()
    ensures { MembersAreListed }
{}

/// A weighting is the lead, which has the least bound and the lowest place among the members with that bound, exactly
/// where it is the first of the list of the family with the least bound.
pub fn lead_is_first_least()
    ensures { LeadIsFirstLeast }
{}
