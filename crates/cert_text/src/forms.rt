ghost use Rattle.std.specs.Prelude.{◌≡◌, ◌≤◌};
ghost use Rattle.cert_text.specs.Forms.{most_cuts as most_cuts_of, has_tables as has_tables_in};

/// The forms of a report: the first, and today's, which has more cuts and has tables.
#[derive(Clone, Copy, PartialEq, Eq, Debug)]
pub enum Form {
    One,
    Two,
}

// The most cuts that a strip certificate has.
pub(crate) fn most_cuts(form: Form) -> u32
    ensures value { result ≡ most_cuts_of form }
    ensures few { result ≤ 1002 }
{
    match form {
        Form::One => 402,
        Form::Two => 1_002,
    }
}

// Whether a weighting may be a table.
pub(crate) fn has_tables(form: Form) -> bool
    ensures { result ≡ has_tables_in form }
{
    match form {
        Form::One => false,
        Form::Two => true,
    }
}
