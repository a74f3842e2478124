//! The room of a desk, and its run.

ghost use Rattle.std.specs.Prelude.{◌≡◌, ◌<◌, ◌^◌, All, IsTrue, IfOk};
ghost use Rattle.session_desk.specs.Book.{IsBookOf};
ghost use Rattle.session_desk.specs.Going.{DeskWent};
ghost use Rattle.control_desk.specs.Faults.{AreFaultsTold};
ghost use Rattle.control_desk.specs.Connections.{first_room};
ghost use Rattle.control_desk.specs.Run.{HasGone, HasRun};

use crate::connections::CONNECTION_LIMIT;
use crate::counts::{Counts, DeskTally};
use crate::hands::Hands;
use crate::names::Names;
use crate::room::Places;
use crate::running::hear_all;
use crate::setting::Setting;
use conf_text::Conf;
use net_io::Desk;
use refl_types::Memory;
use session_desk::{DeskBook, law_calls_go_on};
use session_rule::Table;
use std::alloc::Global;
use std::marker::Model;

/// What a desk keeps: what its file says of locals and of negotiated sessions, the named configurations, and 32 places for
/// connections. Contracts see it as a `Room`.
#[derive(Drop)]
pub struct DeskRoom {
    setting: Setting,
    places: Places,
}

impl Model for DeskRoom {
    ghost use Rattle.control_desk.specs.State.{Room};
    ghost use Rattle.control_desk.specs.Connections.{state_of};

    ghost Value = { Room };

    ghost view = { λ r. record { setting = r.setting; state = state_of r.places } };
}

impl DeskRoom {
    /// The room of a desk for a file: its names are there, and no connection is. All memory is taken here; only want of memory
    /// refuses.
    pub fn make(alloc: Global, conf: &Conf) -> Result<DeskRoom, Memory>
        ensures { IfOk result (λ room. room ≡ first_room conf.now) }
    {
        let Ok(locals) = Vec::from_slice(alloc, conf.locals()) else {
            return Err(Memory);
        };
        let names = Names::make(alloc, conf.configs())?;
        let Ok(connections) = Vec::with_capacity(alloc, CONNECTION_LIMIT) else {
            return Err(Memory);
        };
        let places = Places {
            names,
            connections,
            started: None,
        };
        Ok(DeskRoom {
            setting: Setting::new(locals, *conf.twamp()),
            places,
        })
    }

    /// The ports of its locals have 16 bits, which its value doesn't tell.
    pub fn law_ports(&self)
        ensures { All (λ l. l.port < 2 ^ 16) self.now.setting.locals }
    {
        self.setting.law_ports();
    }
}

/// Runs the desk, until it ends: by an end that the desk tells, by an operator's `quit`, after `turns` calls for the next
/// event, or after 64 such calls in a row that failed; they are tried in this order. It takes no memory.
pub fn run_desk<D: Desk>(
    table: &Table,
    book: &mut DeskBook,
    room: &mut DeskRoom,
    desk: &mut D,
    turns: u64,
) -> DeskTally
    requires open { IsTrue (D.shown desk.old).is_open }
    requires book { IsBookOf table.now book.old }
    ensures run { HasRun table.now room.old.setting turns room.old.state (D.shown desk.old).log (D.shown desk.new).log book.old book.new result }
    ensures gone { HasGone D.goes table.now room.old.setting turns room.old.state desk.old desk.new book.old book.new result }
    ensures went { DeskWent table.now book.old book.new }
    ensures faults { AreFaultsTold (D.shown desk.old).faults (D.shown desk.new).faults result.faults }
    ensures made { (D.shown desk.new).made ≡ (D.shown desk.old).made }
    ensures book { IsBookOf table.now book.new }
{
    law_calls_go_on();
    book.law_fits();
    let mut counts = Counts {
        events: 0,
        faults: 0,
        closed: 0,
        expired: 0,
    };
    let mut hands = Hands {
        table,
        book: &mut *book,
        desk: &mut *desk,
        counts: &mut counts,
    };
    let end = hear_all(&room.setting, &mut room.places, &mut hands, turns);
    desk.finish();
    DeskTally {
        events: counts.events,
        faults: counts.faults,
        closed: counts.closed,
        expired: counts.expired,
        end,
    }
}
