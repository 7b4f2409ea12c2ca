ghost use Rattle.case_design.specs.Laws.{SizesAreOne, SizeRowsAreOrders, FilesHaveOneAnswer, BestsAreOne, BestsHaveOneText};

/// Each brief, in its ranges or not, has one list of sizes.
pub fn sizes_are_one()
    ensures { SizesAreOne }
{}

/// The row of a size is the order for cases of that size, or it is refused since no case fits on the pallet, or since by area
/// more than 1,000 do.
pub fn size_rows_are_orders()
    ensures { SizeRowsAreOrders }
{}

/// No file has two designs, nor a design together with a reason for none, nor two such reasons.
pub fn files_have_one_answer()
    ensures { FilesHaveOneAnswer }
{}

/// Two bests of the same entries are equal, and so are their rivals.
pub fn bests_are_one()
    ensures { BestsAreOne }
{}

/// No text is that of two bests or of two lists of rivals, by what is told of them, where each number has at most ten digits.
pub fn bests_have_one_text()
    ensures { BestsHaveOneText }
{}
