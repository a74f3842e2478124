//! The messages that a server writes (RFC 5357, section 3; RFC 4656, section 3).

ghost use Rattle.std.specs.Prelude.{◌≡◌};
ghost use Rattle.control_msgs.specs.Layout.{accept_session, greeting, server_start, start_ack};

use crate::modes::MODES;
use ntp_time::stamp;
use octet_format::put;
use refl_types::Clock;

/// The count that a client would use to derive a key from its password (RFC 4656, section 3.1). The least is 1024.
const COUNT: u32 = 1024;

/// Writes the Server Greeting (RFC 4656, section 3.1).
pub fn write_greeting(out: &mut [u8; 64])
    ensures { out.new ≡ greeting }
{
    put(out, 0, &[0; 12]);
    put(out, 12, &MODES.to_be_bytes());
    put(out, 16, &[0; 16]);
    put(out, 32, &[0; 16]);
    put(out, 48, &COUNT.to_be_bytes());
    put(out, 52, &[0; 12]);
}

/// Writes the Server-Start (RFC 4656, section 3.1). `start` is the moment at which the server was started, in
/// nanoseconds since the start of 1970.
pub fn write_server_start(accept: u8, start: u64, out: &mut [u8; 48])
    ensures { out.new ≡ server_start accept start }
{
    put(out, 0, &[0; 15]);
    put(out, 15, &[accept]);
    put(out, 16, &[0; 16]);
    put(out, 32, &stamp(Clock::Ntp, 0, start));
    put(out, 40, &[0; 8]);
}

/// Writes the Accept-Session (RFC 5357, section 3.5; RFC 6038, section 3.3). A refusal has port 0 and a SID of zeros.
pub fn write_accept(accept: u8, port: u16, sid: &[u8; 16], reflected: &[u8; 2], out: &mut [u8; 48])
    ensures { out.new ≡ accept_session accept port sid.now reflected.now }
{
    put(out, 0, &[accept]);
    put(out, 1, &[0]);
    put(out, 2, &port.to_be_bytes());
    put(out, 4, sid);
    put(out, 20, reflected);
    put(out, 22, &[0; 2]);
    put(out, 24, &[0; 8]);
    put(out, 32, &[0; 16]);
}

/// Writes the Start-Ack (RFC 5357, section 3.7).
pub fn write_start_ack(accept: u8, out: &mut [u8; 32])
    ensures { out.new ≡ start_ack accept }
{
    put(out, 0, &[accept]);
    put(out, 1, &[0; 15]);
    put(out, 16, &[0; 16]);
}
