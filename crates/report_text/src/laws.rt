ghost use Rattle.std.specs.Prelude.{◌≡◌, ◌<◌, ◌≤◌, List, length};
ghost use Rattle.texts.specs.Grammar.{Reads};
ghost use Rattle.texts.specs.Lines.{text_of};
ghost use Rattle.texts.specs.Spelling.{HasOneSpelling};
ghost use Rattle.cert_text.specs.declared.forms.Form.{Form};
ghost use Rattle.cert_text.specs.declared.forms.Form.TheVariants as forms;
ghost use Rattle.weightings.specs.declared.certs.Cert.{Cert};
ghost use Rattle.cert_text.specs.Ranges.{InRange};
ghost use Rattle.cert_text.specs.Text.{cert_text};
ghost use Rattle.report_text.specs.Lengths.{IsTableOrTree, short_length, HaveShortCerts};
ghost use Rattle.plan_entries.specs.Ranges.{IsInRange};
ghost use Rattle.plan_entries.specs.declared.entries.Entry.{Entry};
ghost use Rattle.report_text.specs.Text.{entry_lines};
ghost use Rattle.report_text.specs.Lines.{entry_at};
ghost use Rattle.report_text.specs.Reports.{Report, report_lines, report_text, AreReported, IsReport};

/// What reading line by line gives is exactly the entry whose lines are in front, or the first fault.
pub fn entries_are_read()
    ensures { (form : Form) → Reads (entry_lines form) (IsInRange form) (entry_at form) }
{}

/// In each form an entry has one text, no text is that of two entries, and no text begins with another.
pub fn entries_have_one_spelling()
    ensures { (form : Form) → HasOneSpelling (entry_lines form) (IsInRange form) }
{}

/// An entry that has a text of the first form has one of today's.
pub fn old_entries_are_new()
    ensures { (e : Entry) → IsInRange forms.One e → IsInRange forms.Two e }
{}

/// A report's text is that of its lines.
pub fn reports_are_lines()
    ensures { (r : Report) → text_of (report_lines r) ≡ report_text r.form r.entries }
{}

/// No text is that of two reports, of one form or of both, and no text begins with another.
pub fn reports_have_one_spelling()
    ensures { HasOneSpelling report_lines IsReport }
{}

/// The entries of a report of the first form, as they are, are those of one of today's form.
pub fn old_reports_are_new()
    ensures { (entries : List Entry) → AreReported forms.One entries → AreReported forms.Two entries }
{}

/// A certificate without a table of weights, or with a tree of one mark, has a text of at most 505,000 bytes.
pub fn certificates_are_short()
    ensures { (c : Cert) → InRange forms.Two c → IsTableOrTree c → length (cert_text c) ≤ short_length }
{}

/// A report in today's form whose certificates are so short is shorter than 160,000,000 bytes.
pub fn reports_are_short()
    ensures { (entries : List Entry) → AreReported forms.Two entries → HaveShortCerts entries → length (report_text forms.Two entries) < 160000000 }
{}
