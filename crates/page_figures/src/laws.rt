ghost use Rattle.page_figures.specs.Laws.{RectanglesTellCases};

/// The rectangle and the number of a case on the pallet are those of no other case on it.
pub fn rectangles_tell_cases()
    ensures { RectanglesTellCases }
{}
