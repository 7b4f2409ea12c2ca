// What follows from what a run did.
ghost use Rattle.page_mode.specs.Pages.{PagesAreComplete};

/// Of a report, on streams whose counts of faults did not rise, `page` lacks nothing but memory.
pub fn pages_are_complete()
    ensures { PagesAreComplete }
{}
