ghost use Rattle.std.specs.Prelude.{◌≡◌, ◌<◌, ◌≤◌, ◌↔◌, length, IsTrue, All};
ghost use Rattle.std.specs.List.Sorted.{IsStrictlyIncreasing};
ghost use Rattle.line_tables.specs.Lines.{line_at, AreLines};
ghost use Rattle.line_tables.specs.Laws.{lines_below};

/// Each line is below this, the greatest side of a pallet.
pub const LINES_END: u32 = 4000;

// Whether each number is below the next.
fn are_rising(lines: &[u32]) -> bool
    ensures { IsTrue result ↔ IsStrictlyIncreasing lines.now }
{
    lines.is_sorted_by(|line, next| *line < *next)
}

// Whether these are the lines of an axis: one at least, rising, each below 4,000.
pub(crate) fn are_lines(lines: &[u32]) -> bool
    ensures { IsTrue result ↔ AreLines lines.now }
{
    !lines.is_empty() && are_rising(lines) && are_below(lines, LINES_END)
}

// Whether each of the numbers is below the end.
fn are_below(lines: &[u32], end: u32) -> bool
    ensures { IsTrue result ↔ All (λ line. line < end) lines.now }
{
    lines.iter().all(|line| *line < end)
}

// Whether rising lines are all below the end, which the last one tells.
pub(crate) fn end_before(lines: &[u32], end: u32) -> bool
    requires rising { IsStrictlyIncreasing lines.now }
    ensures { IsTrue result ↔ All (λ line. line < end) lines.now }
{
    match lines {
        [] => true,
        [.., last] => *last < end,
    }
}

// How many of the lines stand before a place.
pub(crate) fn count_below(lines: &[u32], place: u64) -> usize
    requires rising { IsStrictlyIncreasing lines.now }
    ensures value { result ≡ lines_below lines.now place }
    ensures small { result ≤ length lines.now }
{
    lines.partition_point(|line| u64::from(*line) < place)
}

// The same, where at least `known` lines are known to stand before the place: the next lines are looked through in turn.
pub(crate) fn count_below_from(lines: &[u32], known: usize, place: u64) -> usize
    requires rising { IsStrictlyIncreasing lines.now }
    requires known { known ≤ lines_below lines.now place }
    ensures value { result ≡ lines_below lines.now place }
    ensures small { result ≤ length lines.now }
{
    for k in known..lines.len() {
        if u64::from(lines[k]) >= place {
            return k;
        }
    }
    lines.len()
}

// Which of the lines stands at a place, counted from 0.
pub(crate) fn place_of(lines: &[u32], place: u32) -> Option<usize>
    requires rising { IsStrictlyIncreasing lines.now }
    ensures { result ≡ line_at lines.now place }
{
    lines.binary_search(&place).ok()
}
