//! Laws of the lines.

ghost use Rattle.std.specs.Prelude.{◌≡◌, ◌≤◌, List, ℕ, length, Some};
ghost use Rattle.operator_lines.specs.declared.line.Line as declared;
ghost use Rattle.operator_lines.specs.Lines.{IsLine, line_limit};
ghost use Rattle.operator_lines.specs.Reading.{line_from};

use text_forms::{law_endpoint_texts, law_number_texts};

/// A text is read as a line exactly where it spells that line, so a text is at most one line. No line is longer than the
/// limit.
pub fn law_lines()
    ensures read { (s : List ℕ) (line : declared.Line) → line_from s ≡ Some line → IsLine s line }
    ensures written { (s : List ℕ) (line : declared.Line) → IsLine s line → line_from s ≡ Some line }
    ensures one { (s : List ℕ) (a b : declared.Line) → IsLine s a → IsLine s b → a ≡ b }
    ensures short { (s : List ℕ) (line : declared.Line) → IsLine s line → length s ≤ line_limit }
{
    law_number_texts();
    law_endpoint_texts();
}
