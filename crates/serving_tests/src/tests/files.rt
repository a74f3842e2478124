//! Files that are served over scripts in memory, where memory is ample.

mod busy;
mod clients;
mod failures;
mod messages;
mod operators;
mod talk;

ghost use Rattle.std.specs.Prelude.{◌≡◌, vec_len};

use net_io::ScriptPort;
use port_io::MemFiles;
use std::alloc::Global;
use std::process::Abort;

const NAME: &str = "reflector.toml";

fn one_name(rt: &impl Abort, alloc: Global) -> Vec<String>
    ensures { vec_len result ≡ 1 }
{
    let name = String::from_str(alloc, NAME).expect(rt, "a name");
    let mut names = Vec::new(alloc);
    names.push(name).expect(rt, "room");
    names
}

fn one_content(rt: &impl Abort, alloc: Global, text: &str) -> Vec<Vec<u8>>
    ensures { vec_len result ≡ 1 }
{
    let content = Vec::from_slice(alloc, text.as_bytes()).expect(rt, "octets");
    let mut contents = Vec::new(alloc);
    contents.push(content).expect(rt, "room");
    contents
}

fn one_file(rt: &impl Abort, alloc: Global, text: &str) -> MemFiles {
    let names = one_name(rt, alloc);
    let contents = one_content(rt, alloc, text);
    MemFiles::make(alloc, names, contents, Vec::new(alloc)).expect(rt, "a file")
}

/// A list of one number.
fn one_number(rt: &impl Abort, alloc: Global, number: u64) -> Vec<u64> {
    Vec::from_slice(alloc, &[number]).expect(rt, "a number")
}

/// A port that tells the moment of the opening, and then its end.
fn port_at(rt: &impl Abort, alloc: Global, moment: u64) -> ScriptPort {
    let moments = one_number(rt, alloc, moment);
    ScriptPort::make(
        alloc,
        Vec::new(alloc),
        moments,
        Vec::new(alloc),
        Vec::new(alloc),
        Vec::new(alloc),
        Vec::new(alloc),
        100,
        100,
    )
    .expect(rt, "a port")
}
