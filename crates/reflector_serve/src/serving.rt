//! Serving: the workers and the desk side by side, from the split to the last join.

ghost use Rattle.std.specs.Prelude.{◌≡◌, ℕ, ◌≤◌, List, [], length, map, vec_len, vec_capacity, IsTrue};
ghost use Rattle.std.specs.Thread.{IsSync, IsSend};
ghost use Rattle.session_world.specs.declared.steps.Step.{Step};
ghost use Rattle.session_desk.specs.Book.{IsBookOf};
ghost use Rattle.reflector_serve.specs.Posts.{AreReady, AllWorked, AreSeated, AreNumbered, AreFresh};
ghost use Rattle.reflector_serve.specs.Running.{DeskRan, HasServed};
ghost use Rattle.reflector_serve.specs.Phases.{Phase};

use crate::post::Post;
use crate::posts::work_all;
use crate::report::Report;
use crate::seats::join_all;
use conf_text::Conf;
use control_desk::{DeskRoom, DeskTally, run_desk};
use net_io::{Desk, Port};
use receive_worker::Tally;
use session_desk::DeskBook;
use session_rule::Table;
use session_world::law_joined_history;
use std::thread::{Threads, join_mut};

/// Runs the desk.
fn run_at<D: Desk>(
    table: &Table,
    conf: &Conf,
    book: &mut DeskBook,
    room: &mut DeskRoom,
    desk: &mut D,
) -> DeskTally
    requires book { IsBookOf table.now book.old }
    requires open { IsTrue (D.shown desk.old).is_open }
    ensures { DeskRan table.now D.shown D.goes conf.now.turns room.old desk.old desk.new book.old book.new result }
{
    run_desk(table, book, room, desk, conf.turns())
}

/// Runs the workers beside each other, and the desk beside them.
pub(crate) fn run_all<R: Threads + Sync, P: Port + Send, D: Desk>(
    rt: &R,
    table: &Table,
    conf: &Conf,
    ports: &mut [P],
    posts: &mut [Post<P>],
    book: &mut DeskBook,
    room: &mut DeskRoom,
    desk: &mut D,
) -> DeskTally
    requires enough { length posts.old ≤ length ports.old }
    requires ready { AreReady P.shown table.now conf.now.locals ports.old posts.old }
    requires book { IsBookOf table.now book.old }
    requires open { IsTrue (D.shown desk.old).is_open }
    ensures workers { AllWorked P.shown table.now conf.now ports.old ports.new posts.old posts.new }
    ensures desk { DeskRan table.now D.shown D.goes conf.now.turns room.old desk.old desk.new book.old book.new result }
{
    let (_, tally) = join_mut(
        rt,
        &mut ||
            requires { IsSync R.row × IsSend P.row × (length posts.now ≤ length ports.now) × AreReady P.shown table.now conf.now.locals ports.now posts.now }
            ensures { AllWorked P.shown table.entry.now conf.entry.now ports.entry.now ports.exit.now posts.entry.now posts.exit.now }
        { work_all(rt, table, conf, ports, posts) },
        &mut ||
            requires { IsBookOf table.now book.now × IsTrue (D.shown desk.now).is_open }
            ensures { DeskRan table.entry.now D.shown D.goes conf.entry.now.turns room.entry.now desk.entry.now desk.exit.now book.entry.now book.exit.now result }
        { run_at(table, conf, book, room, desk) },
    );
    tally
}

/// The tallies of all posts, in their order.
fn tallies_of<P>(posts: &[Post<P>], tallies: &mut Vec<Tally>)
    requires empty { tallies.old.items ≡ [] }
    requires room { length posts.now ≤ vec_capacity tallies.old }
    ensures { tallies.new.items ≡ map (λ p. p.tally) posts.now }
{
    for post in posts {
        tallies.push_reserved(post.tally);
    }
}

/// Runs the workers, which were split off at their posts, and the desk, and joins all.
pub(crate) fn serve_split<R: Threads + Sync, P: Port + Send, D: Desk>(
    rt: &R,
    table: &Table,
    conf: &Conf,
    book: &mut DeskBook,
    ports: &mut [P],
    mut posts: Vec<Post<P>>,
    mut tallies: Vec<Tally>,
    room: &mut DeskRoom,
    desk: &mut D,
) -> Report
    requires ready { AreReady P.shown table.now conf.now.locals ports.old posts.items }
    requires ports { length ports.old ≡ vec_len posts }
    requires seats { AreSeated table.now posts.items }
    requires numbers { AreNumbered 1 posts.items }
    requires fresh { AreFresh posts.items }
    requires book { IsBookOf table.now book.old }
    requires open { IsTrue (D.shown desk.old).is_open }
    requires empty { tallies.items ≡ [] }
    requires space { vec_len posts ≤ vec_capacity tallies }
    ensures { (first base : List Step) → Phase table.now first base book.old (vec_len posts) []
        → HasServed P.shown D.shown D.goes table.now conf.now room.old first ports.old ports.new desk.old desk.new book.old book.new result }
{
    let tally = run_all(
        rt,
        table,
        conf,
        ports,
        posts.as_mut_slice(),
        book,
        room,
        desk,
    );
    tallies_of(posts.as_slice(), &mut tallies);
    join_all(table, book, posts);
    law_joined_history();
    book.law_fits();
    Report {
        workers: tallies,
        desk: tally,
        live: book.live_len(),
    }
}
