//! What follows from how the report of a load ends.

ghost use Rattle.load_report.specs.Decides.{LoadDecides};

/// Where no write fails, the lines of a load are written, but for want of memory.
#[tactic(auto, using(crate::proofs::Decides::load_decides))]
pub fn law_load_decides()
    ensures { LoadDecides }
{}
