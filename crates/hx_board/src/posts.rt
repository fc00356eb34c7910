//! What controllers post, and what an instance fetches.
ghost use Rattle.std.specs.Prelude.{◌≡◌, true, length, IfOk, OnOk, OnErr};
ghost use Rattle.std.specs.List.{list_all};
ghost use Rattle.hx_lists.specs.Answers.{RefusedBy};
ghost use Rattle.hx_cluster.specs.Steps.{has_instance, has_controller};
ghost use Rattle.hx_cluster.specs.Reads.{fetched};
ghost use Rattle.hx_cluster.specs.Events.{is_postable};
ghost use Rattle.hx_board.specs.Board.{happened};
ghost use Rattle.hx_board.specs.Refusals.{post_refusal, fetch_refusal};

use crate::board::{Board, make_room, record};
use crate::faults::{PostRefusal, RoomFault};
use hx_cluster::{Event, Mail, Seen};
use hx_ids::{ControllerId, Epoch, InstanceId};

impl Board {
    fn post_fault(&self, epoch: Epoch, rows: &[Seen]) -> Option<PostRefusal>
        ensures { result ≡ post_refusal self.now epoch rows.now }
    {
        let now = self.records.epoch();
        if now != epoch {
            return Some(PostRefusal::Fenced { now });
        }
        self.full(1 + rows.len() as u64)
            .map(|weight| PostRefusal::HistoryFull { weight })
    }

    /// Keeps rows as the posted view.
    pub fn publish(
        &mut self,
        c: ControllerId,
        epoch: Epoch,
        rows: &[Seen],
    ) -> Result<(), PostRefusal>
        requires controller { has_controller self.old.cluster c ≡ true }
        requires rows { list_all (is_postable self.old.cluster) rows.now ≡ true }
        ensures refused { RefusedBy PostRefusal.OutOfMemory (post_refusal self.old epoch rows.now)
            result }
        ensures ok { OnOk result (self.new ≡ happened self.old (Event.Post c epoch rows.now)) }
        ensures err { OnErr result (self.new ≡ self.old) }
    {
        if let Some(fault) = self.post_fault(epoch, rows) {
            return Err(fault);
        }
        make_room(&mut self.history, self.owed, 1)?;
        self.records.publish(rows)?;
        let posted = self.records.posted_rows();
        record(
            &mut self.history,
            Event::Post {
                c,
                epoch,
                rows: posted,
            },
        );
        self.weight += 1 + rows.len() as u64;
        Ok(())
    }

    /// An instance's live session, and its pending messages by number.
    pub fn fetch(&mut self, instance: InstanceId) -> Result<Mail, RoomFault>
        requires { has_instance self.old.cluster instance ≡ true }
        ensures refused { RefusedBy RoomFault.OutOfMemory (fetch_refusal self.old) result }
        ensures mail { IfOk result (λ mail. mail ≡ fetched self.old.cluster instance) }
        ensures ok { IfOk result (λ mail.
            self.new
            ≡ happened self.old (Event.Fetch instance mail.session (length mail.messages))) }
        ensures err { OnErr result (self.new ≡ self.old) }
    {
        if let Some(weight) = self.full(1) {
            return Err(RoomFault::HistoryFull { weight });
        }
        make_room(&mut self.history, self.owed, 1)?;
        let mail = self.records.fetch(instance)?;
        let Ok(count) = u32::try_from(mail.messages.len()) else {
            return Err(RoomFault::OutOfMemory);
        };
        record(
            &mut self.history,
            Event::Fetch {
                instance,
                session: mail.session,
                count,
            },
        );
        self.weight += 1;
        Ok(mail)
    }
}
