// The words of calls and replies: how many fit, a call read and a reply stored. specs/Encoding.antt says which word is which.
#![tactic(auto)]

ghost use Rattle.std.specs.Prelude.{◌≡◌, ◌<◌, ◌≤◌, ◌+◌, length};
ghost use Rattle.encoding.specs.Encoding.{call_length, reply_length, room_for, call_from, with_reply_at};

use calls::Call;
use replies::Reply;

// How many words a call has, and where those stand that are read.
pub const CALL_LENGTH: usize = 8;

const NUMBER_OFFSET: usize = 0;

const TENANT_OFFSET: usize = 1;

const SUBJECT_OFFSET: usize = 2;

const AMOUNT_OFFSET: usize = 3;

pub const BURNS_OFFSET: usize = 6;

// How many words a reply has, and where each stands; the high bits of a value, and the last two, are 0.
pub const REPLY_LENGTH: usize = 8;

const REFUSAL_OFFSET: usize = 0;

const SERVER_OFFSET: usize = 1;

const VALUE_OFFSET: usize = 2;

const HIGH_OFFSET: usize = 3;

const OPENED_OFFSET: usize = 4;

const INVALIDATED_OFFSET: usize = 5;

const SPARE_OFFSET: usize = 6;

const LAST_OFFSET: usize = 7;

// The answer where words that are lent are too few, a number that no call gives. The crates on words answer numbers, and no enum of
// these and the refusals, since the C interface gives their functions its names.
pub const TOO_SHORT: u32 = 4294967294;

// How many encoded calls slices of these lengths have room for.
pub fn room(calls: usize, replies: usize) -> usize
    ensures { result ≡ room_for calls replies }
{
    (calls / CALL_LENGTH).min(replies / REPLY_LENGTH)
}

// The call whose words begin at a word, where its number is that of a call.
#[tactic(auto, unfolding(crate::specs::Encoding::call_from))]
pub fn call_from(words: &[u32], at: usize) -> Option<Call>
    requires { at + call_length ≤ length words.now }
    ensures { result ≡ call_from words.now at }
{
    Call::of(
        words[at + NUMBER_OFFSET],
        words[at + TENANT_OFFSET],
        words[at + SUBJECT_OFFSET],
        words[at + AMOUNT_OFFSET],
    )
}

// Stores the eight words of a reply, from a word on.
#[tactic(auto, unfolding(crate::specs::Encoding::with_reply_at))]
pub fn store(replies: &mut [u32], at: usize, reply: Reply)
    requires reply_length_in_bounds { at + reply_length ≤ length replies.old }
    requires server_bound { (reply.server < 4294967296) × (reply.opened < 4294967296) × (reply.invalidated < 4294967296) }
    ensures { replies.new ≡ with_reply_at replies.old at reply }
{
    replies[at + REFUSAL_OFFSET] = reply.refusal;
    replies[at + SERVER_OFFSET] = reply.server as u32;
    replies[at + VALUE_OFFSET] = reply.value;
    replies[at + HIGH_OFFSET] = 0;
    replies[at + OPENED_OFFSET] = reply.opened as u32;
    replies[at + INVALIDATED_OFFSET] = reply.invalidated as u32;
    replies[at + SPARE_OFFSET] = 0;
    replies[at + LAST_OFFSET] = 0;
}
