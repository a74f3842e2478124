//! The workers side by side, each at its port.

ghost use Rattle.std.specs.Prelude.{◌≡◌, ◌≤◌, [], length};
ghost use Rattle.std.specs.Thread.{IsSync, IsSend};
ghost use Rattle.session_rule.specs.Seats.{IsWorkerOf, worker_steps};
ghost use Rattle.reflector_serve.specs.Posts.{AreReady, WorkedAt, AllWorked};

use crate::post::Post;
use conf_text::Conf;
use net_io::Port;
use receive_worker::work;
use session_rule::Table;
use std::thread::{Threads, join_mut};

#[tactic(auto, using(crate::proofs::SeatFacts::holds_nothing))]
/// Has a worker work at its port.
fn work_at<P: Port>(table: &Table, conf: &Conf, port: &mut P, post: &mut Post<P>)
    requires bound { (P.shown port.old).bound ≡ conf.now.locals }
    requires seat { IsWorkerOf table.now post.old.seat }
    requires fresh { worker_steps post.old.seat ≡ [] }
    ensures { WorkedAt P.shown table.now conf.now port.old port.new post.old post.new }
{
    post.tally = work(
        table,
        &mut post.seat,
        port,
        conf.locals(),
        conf.limit(),
        conf.turns(),
        &mut post.buffers,
    );
}

#[tactic(auto, using(crate::proofs::HalfFacts::none_worked, crate::proofs::HalfFacts::worked_halves))]
/// Runs the worker of each post in a thread of its own, at the port in its place.
pub(crate) fn work_all<R: Threads + Sync, P: Port + Send>(
    rt: &R,
    table: &Table,
    conf: &Conf,
    ports: &mut [P],
    posts: &mut [Post<P>],
)
    requires enough { length posts.old ≤ length ports.old }
    requires ready { AreReady P.shown table.now conf.now.locals ports.old posts.old }
    ensures { AllWorked P.shown table.now conf.now ports.old ports.new posts.old posts.new }
{
    if posts.is_empty() {
        return;
    }
    if posts.len() == 1 {
        work_at(table, conf, &mut ports[0], &mut posts[0]);
        return;
    }
    let half = posts.len() / 2;
    let (front, back) = ports.split_at_mut(half);
    let (front_posts, back_posts) = posts.split_at_mut(half);
    join_mut(
        rt,
        &mut ||
            requires { IsSync R.row × IsSend P.row × (length front_posts.now ≤ length front.now) × AreReady P.shown table.now conf.now.locals front.now front_posts.now }
            ensures { AllWorked P.shown table.entry.now conf.entry.now front.entry.now front.exit.now front_posts.entry.now front_posts.exit.now }
        { work_all(rt, table, conf, front, front_posts) },
        &mut ||
            requires { IsSync R.row × IsSend P.row × (length back_posts.now ≤ length back.now) × AreReady P.shown table.now conf.now.locals back.now back_posts.now }
            ensures { AllWorked P.shown table.entry.now conf.entry.now back.entry.now back.exit.now back_posts.entry.now back_posts.exit.now }
        { work_all(rt, table, conf, back, back_posts) },
    );
}
