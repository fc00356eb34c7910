//! What an instance does with its messages.
ghost use Rattle.std.specs.Prelude.{◌≡◌, OnOk, OnErr};
ghost use Rattle.hx_lists.specs.Answers.{RefusedAs};
ghost use Rattle.hx_cluster.specs.Marks.{take_refusal, write_refusal, ack_refusal};
ghost use Rattle.hx_board.specs.Board.{happened};

use crate::board::{Board, record};
use hx_cluster::{AckFault, Event, Outcome, TakeFault, WriteRefusal};
use hx_ids::{MsgId, SessionId};

impl Board {
    /// A session begins a transition. It takes no memory.
    pub fn take(&mut self, session: SessionId, id: MsgId) -> Result<(), TakeFault>
        ensures refused { RefusedAs (take_refusal self.old.cluster session id) result }
        ensures ok { OnOk result (self.new ≡ happened self.old (Event.Take session id)) }
        ensures err { OnErr result (self.new ≡ self.old) }
    {
        self.records.take(session, id)?;
        record(&mut self.history, Event::Take(session, id));
        self.owed -= 1;
        Ok(())
    }

    /// The outcome of a message comes to its row. It takes no memory.
    pub fn write(
        &mut self,
        session: SessionId,
        id: MsgId,
        outcome: Outcome,
    ) -> Result<(), WriteRefusal>
        ensures refused { RefusedAs (write_refusal self.old.cluster session id) result }
        ensures ok { OnOk result (self.new ≡ happened self.old (Event.Write session id outcome)) }
        ensures err { OnErr result (self.new ≡ self.old) }
    {
        self.records.write(session, id, outcome)?;
        record(&mut self.history, Event::Write(session, id, outcome));
        self.owed -= 1;
        Ok(())
    }

    /// A message that is written is acknowledged, and goes. It takes no memory.
    pub fn ack(&mut self, session: SessionId, id: MsgId) -> Result<(), AckFault>
        ensures refused { RefusedAs (ack_refusal self.old.cluster session id) result }
        ensures ok { OnOk result (self.new ≡ happened self.old (Event.Ack session id)) }
        ensures err { OnErr result (self.new ≡ self.old) }
    {
        self.records.ack(session, id)?;
        record(&mut self.history, Event::Ack(session, id));
        self.owed -= 1;
        Ok(())
    }
}
