//! What callers may know of the book's calls. Each holds by the definitions of `specs/` alone, and costs nothing when it is
//! called.

ghost use Rattle.session_desk.specs.Going.{CallsGoOn};
ghost use Rattle.session_desk.specs.Promises.{LiveStay, PlacesStay, RowsServe};

/// Each call adds steps and answers to the desk's list, adds rows, and splits or joins no worker; and so do several.
pub fn law_calls_go_on()
    ensures { CallsGoOn }
{}

/// A place that was reserved stays so until its session is started or given up, and until then its start is not refused.
pub fn law_places_stay()
    ensures { PlacesStay }
{}

/// A row that is kept stays; a reserve with its configuration is never refused for want of rows.
pub fn law_rows_serve()
    ensures { RowsServe }
{}

/// Only a start, a close and a tick change which sessions are live.
pub fn law_live_stay()
    ensures { LiveStay }
{}
