// Answers in document 01's numbers. They are functions with names and no `From`: a `Result<usize, Refusal>` has two replies, a server's
// and a deletion's.
#![tactic(auto, unfolding(crate::specs::Reply::number_of, crate::specs::Reply::check_number, crate::specs::Reply::reply_of_check, crate::specs::Reply::reply_of_server, crate::specs::Reply::reply_of_write, crate::specs::Reply::reply_of_delete, crate::specs::Reply::found_or, crate::specs::Reply::reply_of_lookup))]

ghost use Rattle.std.specs.Prelude.{◌≡◌};
ghost use Rattle.replies.specs.Reply.{refused, on_server, number_of, check_number, reply_of_check, reply_of_server, reply_of_write, reply_of_delete, reply_of_lookup};

use crate::{LookupAnswer, Refusal, Reply, Written};

impl Refusal {
    // The refusal's number.
    pub fn number(self) -> u32
        ensures { result ≡ number_of self }
    {
        self as u32
    }
}

pub fn check_number<T>(check: &Result<T, Refusal>) -> u32
    ensures { result ≡ check_number check.now }
{
    match check {
        Ok(_) => 0,
        Err(refusal) => refusal.number(),
    }
}

// The reply of an acceptance that carries nothing.
pub const ACCEPTED: Reply = Reply {
    refusal: 0,
    server: 0,
    value: 0,
    opened: 0,
    invalidated: 0,
};

fn refused(refusal: Refusal, opened: usize) -> Reply
    ensures { result ≡ refused (number_of refusal) opened }
{
    Reply {
        refusal: refusal.number(),
        opened,
        ..ACCEPTED
    }
}

fn on_server(server: usize, invalidated: usize) -> Reply
    ensures { result ≡ on_server server invalidated }
{
    Reply {
        server,
        invalidated,
        ..ACCEPTED
    }
}

// The replies of what is accepted or refused. They share the arm of a refusal, which is one call; a function of all, which takes what
// to do with an acceptance, would be no plainer.
pub fn check_reply<T>(check: &Result<T, Refusal>) -> Reply
    ensures { result ≡ reply_of_check check.now }
{
    match check {
        Ok(_) => on_server(0, 0),
        Err(refusal) => refused(*refusal, 0),
    }
}

pub fn server_reply(server: Result<usize, Refusal>) -> Reply
    ensures { result ≡ reply_of_server server }
{
    match server {
        Ok(server) => on_server(server, 0),
        Err(refusal) => refused(refusal, 0),
    }
}

pub fn write_reply(written: Result<Written, Refusal>) -> Reply
    ensures { result ≡ reply_of_write written }
{
    match written {
        Ok(written) => on_server(written.server, written.invalidated),
        Err(refusal) => refused(refusal, 0),
    }
}

pub fn delete_reply(invalidated: Result<usize, Refusal>) -> Reply
    ensures { result ≡ reply_of_delete invalidated }
{
    match invalidated {
        Ok(invalidated) => on_server(0, invalidated),
        Err(refusal) => refused(refusal, 0),
    }
}

pub fn lookup_reply(answer: LookupAnswer) -> Reply
    ensures { result ≡ reply_of_lookup answer }
{
    match answer.value {
        Ok(value) => Reply {
            value,
            opened: answer.opened,
            ..ACCEPTED
        },
        Err(refusal) => refused(refusal, answer.opened),
    }
}
