//! What callers may know of a worker. It holds by the definitions of `specs/` alone, and costs nothing when it is called.

ghost use Rattle.receive_worker.specs.Retired.{LeavesNoSlot};

/// Whoever has worked names no slot at the end.
pub fn law_retires()
    ensures { LeavesNoSlot }
{}
