ghost use Rattle.std.specs.Prelude.{ℕ, ◌≤◌, ◌+◌, ◌*◌, List, length};
ghost use Rattle.texts.specs.Grammar.{Reads};
ghost use Rattle.texts.specs.Spelling.{HasOneSpelling};
ghost use Rattle.order_reader.specs.Orders.{OrderValue};
ghost use Rattle.stack_builder.specs.declared.lists.StackAnswer.{StackAnswer};
ghost use Rattle.plan_entries.specs.declared.listed.Listed.{Listed};
ghost use Rattle.listing_text.specs.Text.{layers_lines, layers_text, answer_lines, answer_text};
ghost use Rattle.listing_text.specs.Ranges.{AreLayersInRange, IsAnswerInRange};
ghost use Rattle.listing_text.specs.Lines.{layers_at, answer_at};

/// What reading line by line gives is exactly the layers whose lines are in front, each of so many cases, or the
/// first fault.
pub fn layers_are_read()
    ensures { (count : ℕ) → Reads layers_lines (AreLayersInRange count) (layers_at count) }
{}

/// Listed layers have one text, no text is that of two lists, and no text begins with another.
pub fn layers_have_one_spelling()
    ensures { (count : ℕ) → HasOneSpelling layers_lines (AreLayersInRange count) }
{}

/// The text of layers of so many cases is short: at most 12 bytes for a case and 20 for a layer's first line.
pub fn layers_are_short()
    ensures { (count : ℕ) (layers : List Listed) → AreLayersInRange count layers → length (layers_text layers) ≤ 8 * (count * 12 + 20) + 10 }
{}

/// What reading line by line gives is exactly the allowed number and the answer whose lines are in front, under
/// the order's rules and for so many variants, or the first fault.
pub fn answers_are_read()
    ensures { (o : OrderValue) (variants : ℕ) → variants ≤ 8 → Reads answer_lines (IsAnswerInRange o variants) (answer_at o variants) }
{}

/// Under an order an allowed number and an answer have one text, no text is that of two, and no text begins with
/// another.
pub fn answers_have_one_spelling()
    ensures { (o : OrderValue) (variants : ℕ) → variants ≤ 8 → HasOneSpelling answer_lines (IsAnswerInRange o variants) }
{}

/// The text of an answer has at most 20,100 bytes.
pub fn answers_are_short()
    ensures { (o : OrderValue) (variants : ℕ) → variants ≤ 8 → (answer : ℕ × StackAnswer) → IsAnswerInRange o variants answer → length (answer_text answer) ≤ 20100 }
{}
