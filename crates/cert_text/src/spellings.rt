ghost use Rattle.texts.specs.Grammar.{Reads};
ghost use Rattle.texts.specs.Spelling.{HasOneSpelling};
ghost use Rattle.cert_text.specs.Lines.{cert_at};
ghost use Rattle.cert_text.specs.Ranges.{InRange};
ghost use Rattle.cert_text.specs.Text.{cert_lines};
ghost use Rattle.cert_text.specs.declared.forms.Form.{Form};

/// In each form a certificate has one text, no text is that of two certificates, and no text begins with another.
pub fn certificates_have_one_spelling()
    ensures { (form : Form) → HasOneSpelling cert_lines (InRange form) }
{}

/// What reading line by line gives is exactly the certificate whose lines are in front, or the first fault.
pub fn certificates_are_read()
    ensures { (form : Form) → Reads cert_lines (InRange form) (cert_at form) }
{}
