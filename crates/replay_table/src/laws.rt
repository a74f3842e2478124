//! What callers may know of the table of a replay.

ghost use Rattle.std.specs.Prelude.{List};
ghost use Rattle.replay_format.specs.Records.{Item};
ghost use Rattle.replay_table.specs.Table.{empty_table};
ghost use Rattle.replay_table.specs.Outcomes.{table_after};
ghost use Rattle.replay_table.specs.Apart.{AreApart};

/// No two sessions of a replay exclude each other, whatever the records: no two have one key, and none has the ends of
/// another in another mode.
pub fn law_apart()
    ensures { (items : List Item) → AreApart (table_after empty_table items).sessions }
{}
