ghost use Rattle.check_mode.specs.Checks.{ChecksAreComplete};
ghost use Rattle.check_mode.specs.Upgrades.{UpgradesAreComplete};

/// Of a report, on streams whose counts of faults did not rise, `check` lacks nothing but memory.
pub fn checks_are_complete()
    ensures { ChecksAreComplete }
{}

/// Of a report, on streams whose counts of faults did not rise, `upgrade` lacks nothing but memory.
pub fn upgrades_are_complete()
    ensures { UpgradesAreComplete }
{}
