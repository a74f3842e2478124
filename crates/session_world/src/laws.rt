//! The laws over all schedules. Each holds by the definitions of `specs/` alone, and costs nothing when it is called.
ghost use Rattle.session_world.specs.Explains.{Explained};
ghost use Rattle.session_world.specs.Held.{Held, HoldsInPart};
ghost use Rattle.session_world.specs.History.{DrawsCount, OneMatch};
ghost use Rattle.session_world.specs.Joined.{JoinedHistory};
ghost use Rattle.session_world.specs.Loads.{LoadedWords};
ghost use Rattle.session_world.specs.OneOrder.{IsTheOrder, OneOrder};
ghost use Rattle.session_world.specs.OneThread.{Begins, CallsTell, OneBound, TurnsTell, WholeTurn};
ghost use Rattle.session_world.specs.Looks.{WorkerLooks};
ghost use Rattle.session_world.specs.DeskLists.{DeskIsAllowed, SlotsAreSound, StepsKeepRows};
ghost use Rattle.session_world.specs.Rows.{LoadsFixRows, RowsStay, WorkersReadRows};
ghost use Rattle.session_world.specs.Visits.{VisitsTell};
ghost use Rattle.session_world.specs.Walks.{WalksGoRound};
ghost use Rattle.session_world.specs.RowsRead.{AnswersName, RowsTell};
ghost use Rattle.session_world.specs.SecondUse.{SecondUse};
ghost use Rattle.session_world.specs.WholeRun.{WholeRun};

/// Each schedule that runs has a history that explains it: one that is legal in the one-thread table, in which each
/// actor's events are its own answers in their order, in which a worker's events stand between its split and its join,
/// and in which no session is opened between a sight and its draw.
pub fn law_explained()
    ensures { Explained }
{}

/// In a legal history a draw stands where its key is bound, and its number is how many draws of that session went
/// before it: the draws of a session are 0, 1, 2 and so on.
pub fn law_draws()
    ensures { DrawsCount }
{}

/// At no point of a legal history does a query match two bound keys.
pub fn law_one_match()
    ensures { OneMatch }
{}

/// While a worker holds a slot, also after it was joined, the slot's generation and its key words stay. It holds what it
/// holds by the part of its list that it is in.
pub fn law_held()
    ensures stays { Held }
    ensures part { HoldsInPart }
{}

/// The key words that a worker reads while it holds a slot are those of a sound key and extra; each open word names a
/// row of the table; each row that a word names is complete, and is read as the desk wrote it; in mode Auth its
/// configuration has an HMAC key; and each word that the desk reads of an open slot is the one that it expects.
pub fn law_words()
    ensures { LoadedWords }
{}

/// A whole run, from the first row word to the first draw, is one that runs: the desk answers that the session is
/// opened, and the worker that it saw the session and drew 0.
pub fn law_whole_run()
    ensures { WholeRun }
{}

/// Where one worker is split off and joined around each of its turns, each history that explains the schedule is one
/// order of all answers: the desk's at their steps, and those of each part at its join.
pub fn law_the_order()
    ensures { IsTheOrder }
{}

/// Where one worker is split off and joined around each of its turns, the order of all answers is that of a legal history
/// of the one-thread table, each answer with the configuration that its row named when it was given.
pub fn law_one_order()
    ensures { OneOrder }
{}

/// What one thread is told, that plays the desk and, in turns, its only worker. At first nothing is bound.
pub fn law_begins()
    ensures { Begins }
{}

/// Between turns the order of all answers is legal, and no query matches two bound keys.
pub fn law_one_bound()
    ensures { OneBound }
{}

/// A call of the desk between turns leaves the table as its answer says.
pub fn law_calls_tell()
    ensures { CallsTell }
{}

/// A turn's answers are those of the table as it stood before the turn: a miss is exact, a sight is of the one session
/// that matches, a draw has its count, and no draw is late.
pub fn law_turns_tell()
    ensures { TurnsTell }
{}

/// A whole turn, from the first row word to the join, is one that runs: its order is the opening, the sight and the draw.
pub fn law_whole_turn()
    ensures { WholeTurn }
{}

/// A worker's last look is at a slot of the table, and where it belongs to a walk, its number says how far from the
/// walk's start it is. Each open word that a worker looked at is that of a slot that was used.
pub fn law_looks()
    ensures { WorkerLooks }
{}

/// Each row that a worker's answers name was named by an open word.
pub fn law_answers_name()
    ensures { AnswersName }
{}

/// What a turn read of a row that its answers name is the configuration for which the row stands.
pub fn law_rows_tell()
    ensures { RowsTell }
{}

/// A complete row stays as it is, whatever the desk does from then on.
pub fn law_rows_stay()
    ensures { RowsStay }
{}

/// The rows that a split-off worker has read stand for the configurations that the desk wrote there.
pub fn law_rows_read()
    ensures { WorkersReadRows }
{}

/// A row stands for the configuration of its twelve words, under whatever the worker's loads of rows stand for, where the
/// worker has loaded them all.
pub fn law_rows_fixed()
    ensures { LoadsFixRows }
{}

/// Each step of the desk's list was allowed.
pub fn law_desk_did()
    ensures { DeskIsAllowed }
{}

/// Slots that the desk has reserved or open are slots of the table that were used, under a sound key; the rows of used
/// slots are complete, and stand for configurations.
pub fn law_desk_slots()
    ensures { SlotsAreSound }
{}

/// A step of the desk leaves a complete row as it is.
pub fn law_desk_rows()
    ensures { StepsKeepRows }
{}

/// How far the slots are from the start of a walk.
pub fn law_walks()
    ensures { WalksGoRound }
{}

/// What a worker's visit to a slot leaves as its last look, and what it answers.
pub fn law_visits()
    ensures { VisitsTell }
{}

/// Where the desk first opened sessions, then split workers off and has joined them all, there is one history for all: it
/// begins with these openings, and has the desk's answers and those of each worker's list, with their rows' configurations.
pub fn law_joined_history()
    ensures { JoinedHistory }
{}

/// A run in which a slot is used twice is one that runs: a walk that goes on past the last slot, loads of a row's words,
/// an exchange of rows, a count, a closing, an expiry, a join, a scan and a second part of a worker's list.
pub fn law_second_use()
    ensures { SecondUse }
{}
