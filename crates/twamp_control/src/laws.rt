//! Laws of the stream, as functions that do nothing.

ghost use Rattle.std.specs.Prelude.{◌≡◌, ℕ, ◌<◌, ◌^◌, Bool, true, false, List, [], ◌∷◌, ◌++◌, length, drop};
ghost use Rattle.std.specs.Prelude.{Some, None};
ghost use Rattle.std.specs.List.{concat};
ghost use Rattle.control_msgs.specs.declared.types.Request.{Request as SessionRequest};
ghost use Rattle.control_msgs.specs.Layout.{request_message, set_up, start_sessions, stop_sessions};
ghost use Rattle.twamp_control.specs.declared.types.Message.{Message};
ghost use Rattle.twamp_control.specs.declared.types.Message.TheVariants.{SetUp, Request, Start, Stop};
ghost use Rattle.twamp_control.specs.Stream.{IsWhole, Reading, message_length, message_of, messages_from};
ghost use Rattle.twamp_control.specs.Connection.{
  Connection,
  Feeds,
  connection_after,
  connection_after_pieces,
  messages_in,
  messages_in_pieces,
};
ghost use Rattle.twamp_control.specs.Talk.{Talk, at_connection, said, talk, talk_in_pieces};

/// Every cut of a stream into pieces gives the same messages, and leaves the same connection.
pub fn every_cut()
    ensures messages { (c : Connection) (pieces : List (List ℕ)) →
        messages_in_pieces c pieces ≡ messages_in c (concat pieces) }
    ensures connection { (c : Connection) (pieces : List (List ℕ)) →
        connection_after_pieces c pieces ≡ connection_after c (concat pieces) }
{}

/// The messages of a stream are its whole messages, one after the other. Octets that begin a message are none yet.
pub fn whole_messages()
    ensures whole { (first : Bool) (octets rest : List ℕ) → IsWhole first octets →
        messages_from (record { first = first; held = [] }) (octets ++ rest)
        ≡ message_of first octets ∷ messages_from (record { first = false; held = [] }) rest }
    ensures begun { (first : Bool) (octets : List ℕ) → length octets < message_length first octets →
        messages_from (record { first = first; held = [] }) octets ≡ [] }
{}

/// What a client writes is the message that the server's machine reads.
pub fn client_messages()
    ensures set_up_whole { (mode : ℕ) → IsWhole true (set_up mode) }
    ensures set_up { (mode : ℕ) → mode < 2 ^ 32 → message_of true (set_up mode) ≡ SetUp mode }
    ensures request_whole { (r : SessionRequest) → length (request_message r) ≡ 112 → IsWhole false (request_message r) }
    ensures request { (r : SessionRequest) → message_of false (request_message r) ≡ Request (request_message r) }
    ensures start_whole { IsWhole false start_sessions }
    ensures start { message_of false start_sessions ≡ Start }
    ensures stop_whole { (number : ℕ) → IsWhole false (stop_sessions number) }
    ensures stop { (number : ℕ) → number < 2 ^ 32 → message_of false (stop_sessions number) ≡ Stop number }
{}

/// Whoever feeds a connection until no message comes, and steps on each message, holds one talk: its replies and the
/// connection afterwards are the same for every cut of its octets into pieces.
pub fn one_talk()
    ensures message { (t : Talk) (new : Connection) (piece : List ℕ) (n : ℕ) (m : Message) →
        Feeds t.connection new piece n (Some m) →
        talk t piece ≡ talk (said (at_connection t new) m) (drop n piece) }
    ensures end { (t : Talk) (new : Connection) (piece : List ℕ) (n : ℕ) →
        Feeds t.connection new piece n None →
        talk t piece ≡ at_connection t new }
    ensures pieces { (t : Talk) (pieces : List (List ℕ)) → talk_in_pieces t pieces ≡ talk t (concat pieces) }
{}
