//! What no schedule that runs has, and what no history explains: how much the definitions refuse.
ghost use Rattle.session_world.specs.Refusals.{OnlyDrawsChange, ReuseIsScanned, HeldIsNotTaken, LooksAreAnnounced, ExpiresAreExact, NoFalseMiss};

/// A worker changes a slot word by a draw alone, and that adds to the very word that it read.
pub fn law_only_draws_change()
    ensures { OnlyDrawsChange }
{}

/// A used slot is reserved only after every worker was scanned since its closing, and neither its word nor a key word of
/// it is written while a worker holds it.
pub fn law_reuse()
    ensures scanned { ReuseIsScanned }
    ensures held { HeldIsNotTaken }
{}

/// A worker looks only at the slot that its announcement word names at that moment.
pub fn law_looks_are_announced()
    ensures { LooksAreAnnounced }
{}

/// Only an expire that found the word that it expects gives an expiry: a close after a peek is none.
pub fn law_expires_are_exact()
    ensures { ExpiresAreExact }
{}

/// No history explains a schedule in which a miss answers a session that stays bound.
pub fn law_no_false_miss()
    ensures { NoFalseMiss }
{}
