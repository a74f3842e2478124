//! The call that opens everything, serves and joins.

ghost use Rattle.std.specs.Prelude.{◌≡◌, ℕ, ◌<◌, ◌≤◌, [], Err, length, vec_len, vec_capacity, IfOk};
ghost use Rattle.reflector_serve.specs.Ports.{OneFails};
ghost use Rattle.reflector_serve.specs.Served.{AreQuiet, HasNotOpened, Served};

use crate::ports::{open_ports, read_first};
use crate::post::Post;
use crate::report::{Report, ServeFault};
use crate::seats::split_all;
use crate::serving::serve_split;
use conf_text::Conf;
use control_desk::DeskRoom;
use file_opening::{new_table, open_sessions};
use net_io::{Desk, Port};
use receive_worker::Buffers;
use refl_types::Memory;
use session_world::law_rows_stay;
use std::alloc::Global;
use std::thread::Threads;

/// The memory of so many workers.
fn make_rooms(alloc: Global, count: usize) -> Result<Vec<Buffers>, Memory>
    ensures { IfOk result (λ v. vec_len v ≡ count) }
{
    let Ok(mut rooms) = Vec::with_capacity(alloc, count) else {
        return Err(Memory);
    };
    for _made in 0..count {
        let buffers = Buffers::make(alloc)?;
        rooms.push_reserved(buffers);
    }
    Ok(rooms)
}

/// Serves at as many ports as there are workers: memory and the table, the moment, the file's sessions, the workers' seats,
/// the ports, the desk; then all run, and are joined. Where an opening fails, what was split off is dropped with the table.
fn serve_at<R: Threads + Sync, P: Port + Send, D: Desk>(
    rt: &R,
    alloc: Global,
    conf: &Conf,
    ports: &mut [P],
    desk: &mut D,
) -> Result<Report, ServeFault>
    requires { length ports.old ≡ conf.now.workers }
    ensures memory { result ≡ Err ServeFault.Memory → (ports.new ≡ ports.old) × (desk.new ≡ desk.old) }
    ensures port_open { result ≡ Err ServeFault.PortOpen → AreQuiet P.shown ports.old ports.new × OneFails P.shown ports.old ports.new × (desk.new ≡ desk.old) }
    ensures desk_open { result ≡ Err ServeFault.DeskOpen → AreQuiet P.shown ports.old ports.new × HasNotOpened D.shown desk.old desk.new }
    ensures served { IfOk result (λ r. Served P.shown D.shown D.goes conf.now ports.old ports.new desk.old desk.new r) }
{
    let count = conf.workers() as usize;
    let Ok((table, mut book)) = new_table(alloc, conf) else {
        return Err(ServeFault::Memory);
    };
    let Ok(rooms) = make_rooms(alloc, count) else {
        return Err(ServeFault::Memory);
    };
    let Ok(mut posts) = Vec::with_capacity(alloc, count) else {
        return Err(ServeFault::Memory);
    };
    let Ok(tallies) = Vec::with_capacity(alloc, count) else {
        return Err(ServeFault::Memory);
    };
    let Ok(mut room) = DeskRoom::make(alloc, conf) else {
        return Err(ServeFault::Memory);
    };
    let moment = read_first(ports);
    open_sessions(&table, &mut book, conf, moment);
    book.law_fits();
    law_rows_stay();
    split_all(&table, &mut book, rooms, &mut posts);
    let Ok(()) = open_ports(ports, conf.locals()) else {
        return Err(ServeFault::PortOpen);
    };
    let Ok(()) = desk.open(conf.control(), conf.operator()) else {
        return Err(ServeFault::DeskOpen);
    };
    Ok(serve_split(
        rt, &table, conf, &mut book, ports, posts, tallies, &mut room, desk,
    ))
}

/// Serves by a configuration file at the first ports, one for each worker, with the desk beside them, until all have ended.
/// Where the file has no memory to be served, or a port or the desk fails to open, nothing is received or sent.
pub fn serve<R: Threads + Sync, P: Port + Send, D: Desk>(
    rt: &R,
    alloc: Global,
    conf: &Conf,
    ports: &mut [P],
    desk: &mut D,
) -> Result<Report, ServeFault>
    requires { conf.now.workers ≤ length ports.old }
    ensures memory { result ≡ Err ServeFault.Memory → (ports.new ≡ ports.old) × (desk.new ≡ desk.old) }
    ensures port_open { result ≡ Err ServeFault.PortOpen → AreQuiet P.shown ports.old ports.new × OneFails P.shown ports.old ports.new × (desk.new ≡ desk.old) }
    ensures desk_open { result ≡ Err ServeFault.DeskOpen → AreQuiet P.shown ports.old ports.new × HasNotOpened D.shown desk.old desk.new }
    ensures served { IfOk result (λ r. Served P.shown D.shown D.goes conf.now ports.old ports.new desk.old desk.new r) }
{
    let (serving, _others) = ports.split_at_mut(conf.workers() as usize);
    serve_at(rt, alloc, conf, serving, desk)
}
