//! What callers may know of the opening. It holds by the definitions of `specs/` alone, and costs nothing when it is called.

ghost use Rattle.file_opening.specs.Used.{OnlyUsed};

/// The rows that the opening leaves are those of configurations that the file uses, and no others.
pub fn law_only_used()
    ensures { OnlyUsed }
{}
