ghost use Rattle.std.specs.Prelude.{◌≡◌, ◌==◌, [], length, MatchOption};
ghost use Rattle.std.specs.List.{position, count_by};
ghost use Rattle.texts.specs.Lines.{whole_lines, TakesLine};

/// The first line, without its end, and what stands behind that end. None exactly where no line has an end.
pub fn next_line(bytes: &[u8]) -> Option<(&[u8], &[u8])>
    ensures { MatchOption result (whole_lines bytes.now ≡ []) (λ x. TakesLine bytes.now x.0.now x.1.now) }
{
    match place_of(bytes, b'\n') {
        Some(at) => Some((&bytes[..at], &bytes[at + 1..])),
        None => None,
    }
}

/// How many lines have an end.
pub fn count_lines(bytes: &[u8]) -> usize
    ensures { result ≡ length (whole_lines bytes.now) }
{
    count_of(bytes, b'\n')
}

// How often a byte stands in a text.
fn count_of(bytes: &[u8], byte: u8) -> usize
    ensures { result ≡ count_by (λ b. b == byte) bytes.now }
{
    bytes.iter().filter(|b| **b == byte).count()
}

// Where a byte stands first.
pub(crate) fn place_of(bytes: &[u8], byte: u8) -> Option<usize>
    ensures { result ≡ position (λ b. b == byte) bytes.now }
{
    bytes.iter().position(|b| *b == byte)
}
