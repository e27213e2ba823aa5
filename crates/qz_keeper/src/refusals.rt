//! What is said where a keeper didn't answer.

ghost use Rattle.std.specs.Prelude.{◌≡◌};
ghost use Rattle.qz_grading.specs.declared.refusal.Refusal.TheVariants as refusal;
ghost use Rattle.qz_keeper.specs.Lists.{refusal_of, told_of};
ghost use Rattle.qz_terms.specs.declared.reply.Reply.TheVariants as reply;

use qz_disks::KeepErr;
use qz_grading::Refusal;
use qz_terms::Reply;

/// The refusal of a call whose keeper didn't answer.
pub fn refusal_of(why: KeepErr) -> Refusal
    ensures { result ≡ refusal_of why }
{
    match why {
        KeepErr::Fault => Refusal::KeepFault,
        KeepErr::Memory => Refusal::Memory,
    }
}

/// The reply, or the refusal of a call whose keeper didn't answer.
pub fn reply_of(told: Result<Reply, KeepErr>) -> Reply
    ensures { result ≡ told_of reply.Refused told }
{
    match told {
        Ok(reply) => reply,
        Err(why) => Reply::Refused(refusal_of(why)),
    }
}
