//! The ports at the opening.

ghost use Rattle.std.specs.Prelude.{◌≡◌, ◌<◌, ◌≤◌, length, OnOk, OnErr};
ghost use Rattle.reflector_serve.specs.Ports.{IsIdle, IsBound, Each, OneFails, FirstTold};

use net_io::Port;
use port_io::Failed;
use refl_types::LocalAddr;

/// The moment of the opening, as the first port tells it.
pub(crate) fn read_first<P: Port>(ports: &mut [P]) -> u64
    requires { 0 < length ports.old }
    ensures { FirstTold P.shown result ports.old ports.new }
{
    let first = &mut ports[0];
    first.now()
}

/// Has ports share the local addresses of the first.
fn share_all<P: Port>(first: &P, others: &mut [P]) -> Result<(), Failed>
    requires { 0 < length (P.shown first.now).bound }
    ensures bound { OnOk result (Each (IsBound P.shown (P.shown first.now).bound) others.old others.new) }
    ensures idle { Each (IsIdle P.shown) others.old others.new }
    ensures cause { OnErr result (OneFails P.shown others.old others.new) }
{
    for port in others.iter_mut() {
        port.share(first)?;
    }
    Ok(())
}

/// Opens the first port at the local addresses, and has the others share them.
pub(crate) fn open_ports<P: Port>(ports: &mut [P], locals: &[LocalAddr]) -> Result<(), Failed>
    requires some { 1 ≤ length locals.now }
    requires few { length locals.now ≤ 16 }
    ensures bound { OnOk result (Each (IsBound P.shown locals.now) ports.old ports.new) }
    ensures idle { Each (IsIdle P.shown) ports.old ports.new }
    ensures cause { OnErr result (OneFails P.shown ports.old ports.new) }
{
    let Some((first, others)) = ports.split_first_mut() else {
        return Ok(());
    };
    first.open(locals)?;
    share_all(first, others)
}
