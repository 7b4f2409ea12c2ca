ghost use Rattle.std.specs.Prelude.{◌≡◌, ◌<◌, List, length};
ghost use Rattle.texts.specs.Lines.{text_of};
ghost use Rattle.texts.specs.Spelling.{HasOneSpelling};
ghost use Rattle.floor_text.specs.declared.rows.FloorRow.{FloorRow};
ghost use Rattle.floor_text.specs.Text.{floor_lines, floor_text, IsFloor, HasShortReport};

/// A floor's text is that of its lines.
pub fn floors_are_lines()
    ensures { (rows : List FloorRow) → text_of (floor_lines rows) ≡ floor_text rows }
{}

/// No text is that of two floors, and no text begins with another.
pub fn floors_have_one_spelling()
    ensures { HasOneSpelling floor_lines IsFloor }
{}

/// The floor whose entries have a report shorter than 160,000,000 bytes has a text shorter than 160,010,000.
pub fn floors_are_short()
    ensures { (rows : List FloorRow) → IsFloor rows → HasShortReport rows → length (floor_text rows) < 160010000 }
{}
