ghost use Rattle.design_mode.specs.Laws.{DesignsAreComplete, BestCoversMost};

use case_design::files_have_one_answer;

/// A run of `design` that read a designs file within its limit, on streams whose counts of faults did not rise, lacked nothing
/// but memory.
pub fn designs_are_complete()
    ensures { DesignsAreComplete }
{
    files_have_one_answer();
}

/// Where a run of `design` told of a best size, that size has a layer that covers as many cells, and no layer of another
/// size covers more, but for the rivals that are told and the sizes that are refused since too many cases may fit. Where
/// none is told, each size is refused. Of a size that is refused since its case does not fit the only layer is empty.
pub fn best_covers_most()
    ensures { BestCoversMost }
{}
