ghost use Rattle.dual_search.specs.Laws.{DualIsOne};

/// The best table of a game of so many rounds is one: each round has one course.
pub fn dual_is_one()
    ensures { DualIsOne }
{}
