//! A worker's post.

use receive_worker::{Buffers, Tally, WorkEnd};
use session_rule::WorkerSeat;
use std::marker::PhantomData;

/// What a worker has besides its port, and what it leaves. It names the port's type, since a closure that lends a slice of
/// ports beside one of another type says nothing of either.
#[derive(Drop)]
pub struct Post<P> {
    pub seat: WorkerSeat,
    pub buffers: Buffers,
    pub tally: Tally,
    pub port: PhantomData<P>,
}

/// The tally of a worker that hasn't begun.
pub(crate) const NO_TALLY: Tally = Tally {
    taken: 0,
    sent: 0,
    no_session: 0,
    short: 0,
    bad_hmac: 0,
    changed: 0,
    no_reply: 0,
    send_fault: 0,
    recv_fault: 0,
    end: WorkEnd::Budget,
};
