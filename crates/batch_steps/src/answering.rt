// What stands for an id's answer while its batch is under way. Two types do so here: a lookup's answer, which has only the numbers of
// its cases, and a reply, which has any.
#![tactic(auto)]

ghost use Rattle.std.specs.Prelude.{◌≡◌, ◌+◌, ◌≤◌, eqb};
ghost use Rattle.limits.specs.Limits.{max_servers};
ghost use Rattle.replies.specs.declared.Reply.{Reply};
ghost use Rattle.replies.specs.Reply.{refused, found_or, reply_of_lookup};

use replies::{ACCEPTED, LookupAnswer, Refusal, Reply};

// What stands for the answer to an id while its batch is under way has the numbers of a reply, and those alone tell what a server
// makes of it.
pub trait Answering: Copy {
    ghost numbers: { Self → Reply };

    // Whether no entry of the id was met yet.
    fn is_absent(&self) -> bool
        ensures { result ≡ eqb (numbers self.now).refusal 8 };

    // Counts a server that is opened for the id, of which no entry was met yet.
    fn count_server(&mut self)
        requires absent { (numbers self.old).refusal ≡ 8 }
        requires opened_le_max_servers { (numbers self.old).opened ≤ max_servers }
        ensures { numbers self.new ≡ refused 8 ((numbers self.old).opened + 1) };

    // Takes what the entry has that is met there.
    fn meet(&mut self, value: Result<u32, Refusal>)
        ensures { numbers self.new ≡ found_or value (numbers self.old).opened };
}

// The programs run on this one. It can have no number above 13 and no value beside a refusal.
#[tactic(auto, using(replies::proofs::Distinct::lookup_opened, crate::proofs::Stepping::counted_answer, crate::proofs::Stepping::met_answer))]
impl Answering for LookupAnswer {
    ghost numbers = { reply_of_lookup };

    fn is_absent(&self) -> bool {
        self.value == Err(Refusal::NotFound)
    }

    fn count_server(&mut self) {
        self.opened += 1;
    }

    fn meet(&mut self, value: Result<u32, Refusal>) {
        self.value = value;
    }
}

// The numbers of a reply may be any: its refusal is any number, and any value may stand beside it.
#[tactic(auto, unfolding(replies::specs::Reply::number_of, replies::specs::Reply::found_or, replies::specs::Reply::reply_of_lookup))]
impl Answering for Reply {
    ghost numbers = { λ r. r };

    fn is_absent(&self) -> bool {
        self.refusal == Refusal::NotFound.number()
    }

    fn count_server(&mut self) {
        *self = Reply {
            refusal: self.refusal,
            opened: self.opened + 1,
            ..ACCEPTED
        };
    }

    fn meet(&mut self, value: Result<u32, Refusal>) {
        let opened = self.opened;
        *self = replies::lookup_reply(LookupAnswer { value, opened });
    }
}
