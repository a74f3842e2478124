//! What follows from how a check ends.

ghost use Rattle.conf_check.specs.Decides.{ContentDecides};

/// Where no call fails, the content of the file alone decides the status, but for want of memory.
#[tactic(auto, using(crate::proofs::Decides::decides))]
pub fn law_content_decides()
    ensures { ContentDecides }
{}
