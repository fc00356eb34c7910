//! The rows of sessions, ready to be copied.
ghost use Rattle.std.specs.Prelude.{◌≡◌, [], is_some};
ghost use Rattle.std.specs.Prelude.{None, Some, IfSome, IfOk, OnOk, OnErr, option_map, option_copied};
ghost use Rattle.hx_slots.specs.Index.{CanPut, one_more, put_in, kept_of, Puts, Keeps};

use crate::session_rows::SessionRows;
use hx_cluster::Row;
use hx_ids::{PartId, SessionId};
use std::alloc::{AllocError, Global};
use std::collections::HashMap;
use std::marker::Model;

/// The rows of sessions, for each that has them kept. Contracts see the sessions in no order.
#[derive(Drop)]
pub(crate) struct RowIndex {
    alloc: Global,
    lists: HashMap<SessionId, SessionRows>,
}

impl Model for RowIndex {
    ghost use Rattle.std.specs.Prelude.{List};
    ghost use Rattle.hx_ids.specs.declared.SessionId.{SessionId};
    ghost use Rattle.hx_slots.specs.Index.{Ready};

    ghost Value = { List (SessionId × Ready) };

    ghost view = { λ a. a.lists.entries };
}

impl RowIndex {
    /// No rows are kept.
    pub(crate) fn new(alloc: Global) -> RowIndex
        ensures { result ≡ [] }
    {
        RowIndex {
            alloc,
            lists: HashMap::new(alloc),
        }
    }

    /// The rows of a session, if they are kept. It takes no memory.
    pub(crate) fn of(&self, session: SessionId) -> Option<&SessionRows>
        ensures { option_copied result ≡ kept_of self.now session }
    {
        self.lists.get(&session)
    }

    /// Keeps the rows of a session that has one slot, without a row.
    pub(crate) fn open(&mut self, session: SessionId) -> Result<(), AllocError>
        ensures ok { OnOk result
            (Puts session (Some (record { slots = 1; rows = [] })) self.old self.new) }
        ensures err { OnErr result (Keeps self.old self.new) }
    {
        let rows = SessionRows::new(self.alloc)?;
        self.lists.insert(session, rows)?;
        Ok(())
    }

    /// One more slot, without a row, where a session's rows are kept. It says whether they are.
    pub(crate) fn add(&mut self, session: SessionId) -> Result<bool, AllocError>
        ensures kept { IfOk result (λ kept. kept ≡ is_some (kept_of self.old session)) }
        ensures ok { OnOk result
            (Puts session (option_map one_more (kept_of self.old session)) self.old self.new) }
        ensures err { OnErr result (Keeps self.old self.new) }
    {
        let Some(kept) = self.lists.get_mut(&session) else {
            return Ok(false);
        };
        kept.add_slot()?;
        Ok(true)
    }

    /// Puts a row of a part in its place, or none, where the rows of its session are kept and the
    /// part had one or none. It takes no memory.
    pub(crate) fn put(&mut self, session: SessionId, part: PartId, had: bool, row: Option<Row>)
        requires { IfSome (kept_of self.old session) (CanPut part had) }
        ensures { Puts session (option_map (put_in part had row) (kept_of self.old session))
            self.old self.new }
    {
        let Some(kept) = self.lists.get_mut(&session) else {
            return;
        };
        kept.put(part, had, row);
    }

    /// Forgets the rows of a session. It takes no memory.
    pub(crate) fn forget(&mut self, session: SessionId)
        ensures { Puts session None self.old self.new }
    {
        self.lists.remove(&session);
    }
}
