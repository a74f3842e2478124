//! Options of the system's sockets, none of which has a failure: what the system doesn't grant is left as it is.

ghost use Rattle.libc.specs.Net.{SockOption};

use libc::net as c;
use mio::net::TcpStream;
use net_io::ConnKind;
use std::net::UdpSocket;
use std::os::fd::AsRawFd;

/// Octets that are asked for to keep datagrams which nobody has received yet: some ten thousand small ones.
const RECEIVE_BUFFER: i32 = 4 * 1_024 * 1_024;

/// Octets of replies that a client of TWAMP-Control may leave with the system: more than a thousand.
const CONTROL_BACKLOG: i32 = 64 * 1_024;

/// Seconds of silence after which a peer is asked whether it is still there, and between two such questions.
const SILENCE: i32 = 60;

const BETWEEN_PROBES: i32 = 10;

/// How many questions stay without an answer before a connection has ended.
const PROBES: i32 = 6;

/// How long a peer may acknowledge nothing of what was sent, or have no room for it, in milliseconds.
const UNACKNOWLEDGED: i32 = 120_000;

/// Asks for a larger receive buffer.
pub fn ask_for_room(socket: &UdpSocket) {
    set(
        socket.as_raw_fd(),
        c::SOL_SOCKET,
        c::SO_RCVBUF,
        RECEIVE_BUFFER,
    );
}

/// Lets small answers leave at once, and has the system end the connection of a peer that has vanished.
pub fn prepare(stream: &TcpStream, kind: ConnKind) {
    let fd = stream.as_raw_fd();
    set(fd, c::IPPROTO_TCP, c::TCP_NODELAY, 1);
    set(fd, c::SOL_SOCKET, c::SO_KEEPALIVE, 1);
    set(fd, c::IPPROTO_TCP, c::TCP_KEEPIDLE, SILENCE);
    set(fd, c::IPPROTO_TCP, c::TCP_KEEPINTVL, BETWEEN_PROBES);
    set(fd, c::IPPROTO_TCP, c::TCP_KEEPCNT, PROBES);
    set(fd, c::IPPROTO_TCP, c::TCP_USER_TIMEOUT, UNACKNOWLEDGED);
    if kind == ConnKind::Control {
        set(fd, c::SOL_SOCKET, c::SO_SNDBUF, CONTROL_BACKLOG);
    }
}

fn set(fd: i32, level: i32, name: i32, number: i32)
    requires { SockOption level name }
{
    let mut value = [0; 16];
    value[..4].copy_from_slice(&number.to_ne_bytes());
    let _granted = unsafe { c::setsockopt(fd, level, name, &value, 4) };
}
