//! Laws of the texts.

ghost use Rattle.std.specs.Prelude.{◌≡◌, ◌≤◌, ◌<◌, ◌^◌, ℕ, List, Some, decimal};
ghost use Rattle.octet_format.specs.Octets.{IsArray};
ghost use Rattle.refl_types.specs.declared.types.Endpoint.{Endpoint};
ghost use Rattle.text_forms.specs.Numbers.{number_from};
ghost use Rattle.text_forms.specs.Endpoints.{endpoint_from, endpoint_text, HasText, prefix_from, prefix_text};

/// A text reads as a number exactly where it is the decimal spelling of that number, and the number is in the range.
pub fn law_number_texts()
    ensures read { (low high n : ℕ) (s : List ℕ) → number_from low high s ≡ Some n → (s ≡ decimal n) × (low ≤ n) × (n ≤ high) }
    ensures written { (low high n : ℕ) → n < 2 ^ 64 → low ≤ n → n ≤ high → number_from low high (decimal n) ≡ Some n }
{}

/// A text reads as an endpoint exactly where it is that endpoint's text.
pub fn law_endpoint_texts()
    ensures read { (e : Endpoint) (s : List ℕ) → endpoint_from s ≡ Some e → HasText e × (s ≡ endpoint_text e) }
    ensures written { (e : Endpoint) → HasText e → endpoint_from (endpoint_text e) ≡ Some e }
{}

/// A text reads as a prefix exactly where it is that prefix's text.
pub fn law_prefix_texts()
    ensures read { (octets : List ℕ) (len : ℕ) (s : List ℕ) → prefix_from s ≡ Some (octets, len) → IsArray 4 octets × (len ≤ 32) × (s ≡ prefix_text octets len) }
    ensures written { (octets : List ℕ) (len : ℕ) → IsArray 4 octets → len ≤ 32 → prefix_from (prefix_text octets len) ≡ Some (octets, len) }
{}
