//! What callers may know of keys in words and of keys that exclude each other.

ghost use Rattle.std.specs.Prelude.{◌≡◌, ◌<◌, ℕ, List, true};
ghost use Rattle.refl_types.specs.declared.types.Endpoint.{Endpoint};
ghost use Rattle.refl_types.specs.declared.types.Extra.{Extra};
ghost use Rattle.refl_types.specs.declared.types.Key.{Key};
ghost use Rattle.refl_types.specs.Keys.{is_sound};
ghost use Rattle.refl_types.specs.Spelling.{FitsSession};
ghost use Rattle.session_key.specs.Matching.{matches, excludes};
ghost use Rattle.session_key.specs.Placing.{place_of};
ghost use Rattle.session_key.specs.Words.{key_words, AreKeyWords, key_of_words, extra_of_words};
ghost use Rattle.session_key.specs.declared.matching.Query.{Query};

/// Keys and extras are equal where their words are; the words of a key that a session may have are those of one, and
/// give it back; and words of a key are those of the one that they give.
pub fn law_words()
    ensures one { (j k : Key) (x y : Extra) → FitsSession j x → FitsSession k y → key_words j x ≡ key_words k y → (j ≡ k) × (x ≡ y) }
    ensures words { (k : Key) (x : Extra) → FitsSession k x → AreKeyWords (key_words k x) }
    ensures key { (k : Key) (x : Extra) → FitsSession k x → key_of_words (key_words k x) ≡ k }
    ensures extra { (k : Key) (x : Extra) → extra_of_words (key_words k x) ≡ x }
    ensures fits { (words : List ℕ) → AreKeyWords words → FitsSession (key_of_words words) (extra_of_words words) }
    ensures again { (words : List ℕ) → AreKeyWords words → key_words (key_of_words words) (extra_of_words words) ≡ words }
{}

/// Two keys that sessions may have and that one datagram matches exclude each other; each key excludes itself; and
/// where one key excludes another, that one excludes it.
pub fn law_excludes()
    ensures matched { (q : Query) (j k : Key) (x y : Extra) → matches q j ≡ true → matches q k ≡ true → is_sound j x ≡ true → is_sound k y ≡ true → excludes j k ≡ true }
    ensures itself { (k : Key) → excludes k k ≡ true }
    ensures turned { (j k : Key) → excludes j k ≡ true → excludes k j ≡ true }
{}
