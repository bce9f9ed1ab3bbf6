//! What a change or a session step is answered, and whether it may have changed anything. Plain data.
ghost use Rattle.std.specs.Prelude.{◌≡◌, false, if◌then◌else◌};
ghost use Rattle.mi_protocol.specs.Replies.{said};
ghost use Rattle.mi_commands.specs.Told as spec;

use mi_protocol::Reply;
use mi_value::Refusal;

/// What a change or a session step is answered.
#[derive(Drop)]
pub struct Outcome {
    pub reply: Reply<'static>,
    /// Whether it may have changed tables, sessions or holder.
    pub changed: bool,
}

impl Outcome {
    /// The outcome with this reply. A reserve changes nothing.
    pub(crate) fn new(reply: Reply<'static>, reserves: bool) -> Outcome
        ensures reply { said result.reply ≡ said reply.entry }
        ensures changed { result.changed ≡ (if reserves then false else spec.tells_change (said reply.entry)) }
    {
        let changed = !reserves && tells_change(&reply);
        Outcome { reply, changed }
    }
}

/// Whether a record is gone after a refusal.
fn loses(refusal: Refusal) -> bool
    ensures { result ≡ spec.loses refusal }
{
    matches!(refusal, Refusal::Lost { .. })
}

/// Whether a reply is to a change or a session step that was accepted, or that lost a record.
fn tells_change(reply: &Reply<'_>) -> bool
    ensures { result ≡ spec.tells_change (said reply.now) }
{
    match reply {
        Reply::Inserted(_)
        | Reply::Done
        | Reply::Erased(_)
        | Reply::Revised(_)
        | Reply::Committed(_)
        | Reply::Undone(_)
        | Reply::Pushed(_) => true,
        Reply::RefusedModify { refusal, .. } => loses(*refusal),
        Reply::Refused { refusal, .. } => loses(*refusal),
        _ => false,
    }
}
