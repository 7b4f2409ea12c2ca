ghost use Rattle.page_pieces.specs.Laws.{EscapedTextsArePlain, EscapedTextsLoseNothing};

/// No byte of an escaped id is `<`, `>` or a quote, so that none opens or closes a tag, or ends an attribute.
pub fn escaped_texts_are_plain()
    ensures { EscapedTextsArePlain }
{}

/// Ids whose escaped texts are equal are equal, so that a page tells which id it shows.
pub fn escaped_texts_lose_nothing()
    ensures { EscapedTextsLoseNothing }
{}
