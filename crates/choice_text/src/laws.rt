ghost use Rattle.std.specs.Prelude.{◌≡◌, ◌<◌, length};
ghost use Rattle.texts.specs.Lines.{text_of};
ghost use Rattle.texts.specs.Spelling.{HasOneSpelling};
ghost use Rattle.choice_text.specs.Text.{ChoiceFile, file_lines, file_text, IsChoiceFile, HasShortReport};

/// A choice's text is that of its lines.
pub fn choices_are_lines()
    ensures { (f : ChoiceFile) → text_of (file_lines f) ≡ file_text f }
{}

/// No text is that of two choices, and no text begins with another.
pub fn choices_have_one_spelling()
    ensures { HasOneSpelling file_lines IsChoiceFile }
{}

/// The choice among entries whose report is shorter than 160,000,000 bytes has a text shorter than 160,010,000.
pub fn choices_are_short()
    ensures { (f : ChoiceFile) → IsChoiceFile f → HasShortReport f → length (file_text f) < 160010000 }
{}
