//! What callers may know of configurations in words.

ghost use Rattle.std.specs.Prelude.{◌≡◌, ℕ, List};
ghost use Rattle.refl_types.specs.declared.config.ConfigParts.{ConfigParts};
ghost use Rattle.refl_types.specs.Spelling.{FitsConfig};
ghost use Rattle.config_rows.specs.Words.{row_words, AreConfigWords, config_of_words};

/// Configurations are equal where their words are; a configuration's words are those of one, and give it back; and
/// words of a configuration are those of the one that they give.
pub fn law_words()
    ensures one { (c d : ConfigParts) → FitsConfig c → FitsConfig d → row_words c ≡ row_words d → c ≡ d }
    ensures words { (c : ConfigParts) → FitsConfig c → AreConfigWords (row_words c) }
    ensures back { (c : ConfigParts) → FitsConfig c → config_of_words (row_words c) ≡ c }
    ensures fits { (words : List ℕ) → AreConfigWords words → FitsConfig (config_of_words words) }
    ensures again { (words : List ℕ) → AreConfigWords words → row_words (config_of_words words) ≡ words }
{}
