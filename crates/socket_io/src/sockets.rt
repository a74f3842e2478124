//! Sockets for datagrams, which all ports of one opening share.

ghost use Rattle.std.specs.Prelude.{◌≡◌, ◌≤◌, length, IfOk};
ghost use Rattle.libc.specs.Net.{RecvFlags};
ghost use Rattle.refl_types.specs.Limits.{datagram_limit};
ghost use Rattle.refl_types.specs.declared.types.Endpoint.{Endpoint};
ghost use Rattle.socket_io.specs.Received.{IfReceived};

use crate::address::socket_addr_of;
use crate::clock::LONGEST_WAIT;
use crate::options::ask_for_room;
use crate::raw_address::{RawAddress, encode, is_known};
use libc::net as c;
use mio::unix::SourceFd;
use mio::{Interest, Poll, Token};
use os::EpollEvent;
use refl_types::{Endpoint, LocalAddr};
use std::alloc::Global;
use std::io::{self, ErrorKind};
use std::net::{Net, UdpSocket};
use std::os::fd::AsRawFd;
use std::time::Duration;

/// The most octets of a datagram. IPv6 allows some more, and such datagrams are dropped.
const DATAGRAM_LIMIT: usize = 65_507;

/// How many datagrams in a row a socket may give before another is asked.
const BURST: u32 = 32;

/// Which socket is asked next, and how many datagrams it may give before the next one is.
#[derive(Clone, Copy)]
pub struct Turn {
    at: usize,
    left: u32,
}

impl Turn {
    /// The first turn of the socket at a place.
    pub fn of(at: usize) -> Turn {
        Turn { at, left: BURST }
    }
}

/// What a receive came to.
#[derive(Clone, Copy)]
pub enum Received {
    /// A datagram stands at the front of the buffer, and its sender in the raw address.
    Datagram {
        /// The place of the socket that it came to.
        local: u16,
        len: usize,
    },
    /// Nothing came in time, or a datagram that is too long.
    Nothing,
    /// The system failed.
    Failed,
}

/// Sockets that are bound to local addresses, one each.
#[derive(Drop)]
pub struct Sockets {
    each: Vec<UdpSocket>,
    pub locals: Vec<LocalAddr>,
    /// The set in which several are waited for. One alone waits in its receive.
    set: Option<Poll>,
    /// The longest wait of a receive, in milliseconds.
    wait: u16,
}

impl Sockets {
    /// Sockets that are bound to these local addresses, in their order. A receive waits so many milliseconds at the most.
    pub fn bind<R: Net>(
        rt: &R,
        alloc: Global,
        locals: &[LocalAddr],
        wait: u16,
    ) -> io::Result<Sockets>
        ensures { IfOk result (λ sockets. sockets.locals.items ≡ locals.now) }
    {
        let mut each = Vec::with_capacity(alloc, locals.len())?;
        for local in locals {
            each.push(bind_one(rt, local, wait)?)?;
        }
        let set = if locals.len() == 1 {
            None
        } else {
            Some(watch(rt, &each)?)
        };
        let locals = Vec::from_slice(alloc, locals)?;
        Ok(Sockets {
            each,
            locals,
            set,
            wait,
        })
    }

    /// The next datagram, where one comes before the wait is over. A socket that is alone waits for it; of several the one whose
    /// turn it is is asked first.
    #[inline(always)]
    pub fn receive(&self, turn: &mut Turn, buf: &mut [u8], raw: &mut RawAddress) -> Received
        ensures len { IfReceived result (λ len. len ≤ datagram_limit) }
        ensures room { length buf.new ≡ length buf.old }
    {
        match &self.set {
            None => self.take_at(0, 0, buf, raw),
            Some(set) => self.receive_of_several(set, turn, buf, raw),
        }
    }

    /// The next datagram of several sockets.
    #[inline(never)]
    fn receive_of_several(
        &self,
        set: &Poll,
        turn: &mut Turn,
        buf: &mut [u8],
        raw: &mut RawAddress,
    ) -> Received
        ensures len { IfReceived result (λ len. len ≤ datagram_limit) }
        ensures room { length buf.new ≡ length buf.old }
    {
        let found = self.sweep(turn, buf, raw);
        if matches!(found, Received::Nothing) && self.wait_in(set) {
            return self.sweep(turn, buf, raw);
        }
        found
    }

    /// The next datagram of the sockets, each of which is asked once. One that fails or is empty loses its turn.
    fn sweep(&self, turn: &mut Turn, buf: &mut [u8], raw: &mut RawAddress) -> Received
        ensures len { IfReceived result (λ len. len ≤ datagram_limit) }
        ensures room { length buf.new ≡ length buf.old }
    {
        for _ in 0..self.each.len() {
            let Turn { at, left } = *turn;
            let at = if at < self.each.len() { at } else { 0 };
            *turn = Turn::of(at + 1);
            let found = self.take_at(at, c::MSG_DONTWAIT, buf, raw);
            if matches!(found, Received::Nothing) {
                continue;
            }
            if left > 1 && matches!(found, Received::Datagram { .. }) {
                *turn = Turn { at, left: left - 1 };
            }
            return found;
        }
        Received::Nothing
    }

    /// Waits until a socket of the set may have something.
    fn wait_in(&self, set: &Poll) -> bool {
        let mut events = [EpollEvent { events: 0, data: 0 }; 1];
        os::epoll_wait(set.as_raw_fd(), &mut events, i32::from(self.wait)) != 0
    }

    /// A datagram of the socket at a place, where there is one before its time is up.
    #[inline(always)]
    fn take_at(&self, at: usize, flags: i32, buf: &mut [u8], raw: &mut RawAddress) -> Received
        requires { RecvFlags flags }
        ensures len { IfReceived result (λ len. len ≤ datagram_limit) }
        ensures room { length buf.new ≡ length buf.old }
    {
        let Some(socket) = self.each.get(at) else {
            return Received::Nothing;
        };
        let Ok(local) = u16::try_from(at) else {
            return Received::Nothing;
        };
        let mut room = c::_SS_SIZE as u32;
        let got = unsafe { c::recvfrom(socket.as_raw_fd(), buf, flags, raw, &mut room) };
        let Ok(len) = usize::try_from(got) else {
            return failed();
        };
        if len > DATAGRAM_LIMIT {
            return Received::Nothing;
        }
        if !is_known(raw, room) {
            return Received::Nothing;
        }
        Received::Datagram { local, len }
    }

    /// Sends a datagram from the local address of that number, and says whether the system took it within 100 ms.
    #[inline(always)]
    pub fn send(&self, from: u16, to: &Endpoint, octets: &[u8], raw: &mut RawAddress) -> bool {
        let Some(socket) = self.each.get(usize::from(from)) else {
            return false;
        };
        let len = encode(to, raw);
        put(socket, octets, raw, len) || was_interrupted() && put(socket, octets, raw, len)
    }
}

/// Hands a datagram to the system, which waits for room in its queue for 100 ms at most. Whether it took it.
#[inline(always)]
fn put(socket: &UdpSocket, octets: &[u8], raw: &RawAddress, len: u32) -> bool
    requires { len ≤ 128 }
{
    let count = unsafe { c::sendto(socket.as_raw_fd(), octets, c::MSG_NOSIGNAL, raw, len) };
    usize::try_from(count) == Ok(octets.len())
}

/// Whether the last call that failed had waited for room until its process was stopped and went on.
#[cold]
#[inline(never)]
fn was_interrupted() -> bool {
    io::Error::from_raw_os_error(os::errno()).kind() == ErrorKind::Interrupted
}

fn bind_one<R: Net>(rt: &R, local: &LocalAddr, wait: u16) -> io::Result<UdpSocket> {
    let socket = rt.bind_udp(socket_addr_of(local))?;
    socket.set_read_timeout(Some(millis(wait)))?;
    socket.set_write_timeout(Some(millis(LONGEST_WAIT)))?;
    ask_for_room(&socket);
    Ok(socket)
}

fn millis(count: u16) -> Duration {
    Duration::from_millis(u64::from(count))
}

/// A set that tells when one of the sockets has something.
fn watch<R: Net>(rt: &R, each: &[UdpSocket]) -> io::Result<Poll> {
    let set = Poll::new(rt)?;
    for socket in each {
        let fd = socket.as_raw_fd();
        set.registry()
            .register(&mut SourceFd(&fd), Token(0), Interest::READABLE)?;
    }
    Ok(set)
}

/// What a receive that failed came to: what ICMP tells of a reply is no failure of it. It stands out of line.
#[cold]
#[inline(never)]
fn failed() -> Received
    ensures { IfReceived result (λ len. ⊥) }
{
    match io::Error::from_raw_os_error(os::errno()).kind() {
        ErrorKind::WouldBlock
        | ErrorKind::Interrupted
        | ErrorKind::ConnectionRefused
        | ErrorKind::HostUnreachable
        | ErrorKind::NetworkUnreachable => Received::Nothing,
        _ => Received::Failed,
    }
}
