//! What the split of a tail is.

ghost use Rattle.std.specs.Prelude.{◌≡◌, ℕ, List};
ghost use Rattle.octet_format.specs.Octets.{IsBytes};
ghost use Rattle.tlv_chain.specs.Split.{Split, IsSplit, split};

/// Every tail has one split, the longest list of whole TLVs from its front and the rest. A law alone: it does nothing.
pub fn law_split()
    ensures is { (tail : List ℕ) → IsBytes tail → IsSplit tail (split tail) }
    ensures alone { (tail : List ℕ) (s : Split) → IsBytes tail → IsSplit tail s → s ≡ split tail }
{}
