//! Splitting all workers off, and joining them.

ghost use Rattle.std.specs.Prelude.{◌≡◌, ℕ, ◌+◌, ◌<◌, ◌≤◌, List, [], length, vec_len, vec_capacity};
ghost use Rattle.session_world.specs.declared.steps.Step.{Step};
ghost use Rattle.session_rule.specs.Seats.{size_of};
ghost use Rattle.session_desk.specs.Book.{IsBookOf};
ghost use Rattle.reflector_serve.specs.Posts.{AreSeated, AreNumbered, AreFresh, lists_of};
ghost use Rattle.reflector_serve.specs.Phases.{Phase, SplitsOff, JoinsAll};

use crate::post::{NO_TALLY, Post};
use receive_worker::Buffers;
use session_desk::DeskBook;
use session_rule::Table;
use std::marker::PhantomData;

#[tactic(auto, using(crate::proofs::JoinFacts::start, crate::proofs::JoinFacts::finish, crate::proofs::JoinFacts::finish_calls))]
/// Joins the workers of all posts, the last first.
pub(crate) fn join_all<P>(table: &Table, book: &mut DeskBook, mut posts: Vec<Post<P>>)
    requires book { IsBookOf table.now book.old }
    requires seats { AreSeated table.now posts.items }
    requires numbers { AreNumbered 1 posts.items }
    ensures joined { (first base : List Step) → Phase table.now first base book.old (vec_len posts) [] → Phase table.now first base book.new 0 (lists_of posts.items) }
    ensures calls { JoinsAll table.now 1 (lists_of posts.items) book.old book.new }
{
    while let Some(post) = posts.pop() {
        book.join(table, post.seat);
    }
}

#[tactic(auto, using(crate::proofs::SplitFacts::start, crate::proofs::SplitFacts::free))]
/// Splits a worker off for each of the rooms, at a post of its own.
pub(crate) fn split_all<P>(
    table: &Table,
    book: &mut DeskBook,
    mut rooms: Vec<Buffers>,
    posts: &mut Vec<Post<P>>,
)
    requires workers { vec_len rooms ≤ (size_of table.now).workers }
    requires opened { (first : List Step) × (base : List Step) × Phase table.now first base book.old 0 [] }
    requires empty { posts.old.items ≡ [] }
    requires room { vec_len rooms ≤ vec_capacity posts.old }
    ensures phase { (first base : List Step) → Phase table.now first base book.old 0 [] → Phase table.now first base book.new (vec_len rooms) [] }
    ensures calls { SplitsOff table.now (vec_len rooms) book.old book.new }
    ensures len { vec_len posts.new ≡ vec_len rooms }
    ensures seats { AreSeated table.now posts.new.items }
    ensures numbers { AreNumbered 1 posts.new.items }
    ensures fresh { AreFresh posts.new.items }
{
    while let Some(buffers) = rooms.pop() {
        let Ok(seat) = book.split(table) else {
            unreachable!();
        };
        posts.push_reserved(Post {
            seat,
            buffers,
            tally: NO_TALLY,
            port: PhantomData,
        });
    }
}
