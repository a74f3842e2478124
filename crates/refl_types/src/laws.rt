//! What callers may know of the tests of equality.

ghost use Rattle.refl_types.specs.Same.{SameIsEqual};

/// Octets, endpoints, modes, keys and configurations pass their test exactly where they are equal.
pub fn law_same()
    ensures { SameIsEqual }
{}
