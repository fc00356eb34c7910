//! The message that a proposal becomes, and which reset flags its outcome leaves.
ghost use Rattle.std.specs.Prelude.{◌≡◌, not, filter};
ghost use Rattle.hx_cluster.specs.Steps.{is_flag};
ghost use Rattle.hx_cluster.specs.Messages.{message_from, flags_after};

use hx_cluster::{Cluster, Message, Outcome, Proposal, is_flag_of};
use hx_ids::{MsgId, PartId, SessionId};
use hx_lists::Seq;

/// The message of this number that a proposal becomes.
pub fn message_from(cluster: &Cluster, id: MsgId, proposal: &Proposal) -> Message
    ensures { result ≡ message_from cluster.now id proposal.now }
{
    Message {
        id,
        session: proposal.session,
        part: proposal.part,
        from: proposal.from,
        to: proposal.to,
        initial: cluster.initial_of(proposal.part),
        epoch: cluster.epoch,
        taken: false,
        written: false,
    }
}

fn clear_flag(flags: &mut Seq<(SessionId, PartId)>, session: SessionId, part: PartId)
    ensures { flags.new ≡ filter (λ f. not (is_flag session part f)) flags.old }
{
    flags.retain(|f| !is_flag_of(f, session, part));
}

/// Which flags stand once an outcome has come.
pub fn settle_flags(flags: &mut Seq<(SessionId, PartId)>, message: &Message, outcome: Outcome)
    ensures { flags.new ≡ flags_after flags.old message.now outcome }
{
    match outcome {
        Outcome::Ok => clear_flag(flags, message.session, message.part),
        Outcome::Failed => {}
    }
}
