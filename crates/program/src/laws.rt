//! What the words of a command are, and what follows from how a replay ends.

ghost use Rattle.std.specs.Prelude.{ℕ, ◌≡◌, List, Some};
ghost use Rattle.program.specs.Command.{CommandParts, command_in};
ghost use Rattle.program.specs.Decides.{StreamDecides, LeftNoStream};
ghost use Rattle.program.specs.Spelled.{AreWords};

use text_forms::law_number_texts;

/// Words are a command exactly where they are the words of that command, so they are at most one.
pub fn law_commands()
    ensures read { (words : List (List ℕ)) (c : CommandParts) → command_in words ≡ Some c → AreWords c words }
    ensures written { (words : List (List ℕ)) (c : CommandParts) → AreWords c words → command_in words ≡ Some c }
{
    law_number_texts();
}

/// Where no call fails, a stream ends with 0, and what is none with 6, but for want of memory.
pub fn law_stream_decides()
    ensures { StreamDecides }
{}

/// What ends with 6 is no stream, whatever else fails.
pub fn law_no_stream()
    ensures { LeftNoStream }
{}
