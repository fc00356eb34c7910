//! A view in order of part, so that what it shows of a part is found at once.
ghost use Rattle.std.specs.Prelude.{◌≡◌, ◌^◌, ◌<◌, ◌==◌, ◌||◌, true, false, length, map, IfOk, unwrap_or, option_copied};
ghost use Rattle.std.specs.List.{list_any};
ghost use Rattle.hx_ids.specs.declared.PartId.{PartId};
ghost use Rattle.hx_ids.specs.declared.SessionId.{SessionId};
ghost use Rattle.hx_cluster.specs.declared.planning.View.{View};
ghost use Rattle.hx_cluster.specs.Ends.{state_of, message_of, has_end, limit_over, count_over};
ghost use Rattle.hx_cluster.specs.Ends.{replicas_of, model_of, no_model};
ghost use Rattle.hx_cluster.specs.Lookups.{model_in};
ghost use Rattle.hx_cluster.specs.Steps.{is_flag};
ghost use Rattle.hx_parts.specs.Parts.{items_at};
ghost use Rattle.hx_parts.specs.Index.{count_in};

use crate::ByPart;
use hx_cluster::{Message, Row, View, has_end, is_flag_of, message_on, state_on};
use hx_ids::{InstanceId, PartId, ResourceId, SessionId, StateId};
use hx_model::{Model, limit};
use std::alloc::{AllocError, Global};

/// A view, with its rows, messages and reset flags in order of part. Contracts see the view.
pub struct ViewIndex<'a> {
    view: &'a View,
    rows: ByPart<Row>,
    mail: ByPart<Message>,
    resets: ByPart<(SessionId, PartId)>,
}

// A derived drop is written out, field by field, wherever one is dropped; this is a call.
impl Drop for ViewIndex<'_> {
    fn drop(self) {
        let ViewIndex {
            view: _,
            rows: _,
            mail: _,
            resets: _,
        } = self;
    }
}

impl<'a> std::marker::Model for ViewIndex<'a> {
    ghost use Rattle.hx_cluster.specs.declared.planning.View.{View};

    ghost Value = { View };

    ghost use Rattle.hx_parts.specs.Index.{IsIndex};

    ghost view = { λ a. a.view.now };

    ghost invariant = { λ a. IsIndex a.view.now a.rows a.mail a.resets };
}

fn has_flag(flags: &[(SessionId, PartId)], session: SessionId, part: PartId) -> bool
    ensures { result ≡ list_any (is_flag session part) flags.now }
{
    flags.iter().any(|f| is_flag_of(f, session, part))
}

/// Whether a state is that of some row.
fn is_among(rows: &[Row], state: StateId) -> bool
    ensures { result ≡ list_any (λ r. r.state.0 == state.0) rows.now }
{
    rows.iter().any(|row| row.state == state)
}

/// Whether a state is one that some message leads from or to.
fn is_met(mail: &[Message], state: StateId) -> bool
    ensures { result
        ≡ list_any (λ m. (m.from.0 == state.0) || (m.to.0 == state.0)) mail.now }
{
    mail.iter()
        .any(|message| message.from == state || message.to == state)
}

/// Whether it is known that a state is an end of no replica.
#[tactic(auto, using(crate::proofs::Found::no_end))]
fn has_none(rows: &[Row], mail: &[Message], state: StateId) -> bool
    ensures { result ≡ true → (part : PartId) (session : SessionId)
        → has_end rows.now mail.now part state session ≡ false }
{
    !is_among(rows, state) && !is_met(mail, state)
}

/// How many live sessions have a state among the ends of a part. Where it is an end of no replica,
/// it costs no walk over them.
fn count_over(
    live: &[(SessionId, InstanceId)],
    rows: &[Row],
    mail: &[Message],
    part: PartId,
    state: StateId,
) -> u32
    requires { length live.now < 2 ^ 32 }
    ensures { result ≡ count_over (map (λ e. e.0) live.now) rows.now mail.now part state }
{
    if has_none(rows, mail, state) {
        return 0;
    }
    live.iter()
        .map(|l| l.0)
        .filter(|session| has_end(rows, mail, part, state, *session))
        .count() as u32
}

impl<'a> ViewIndex<'a> {
    /// The index of a view. More than 4,294,967,295 live sessions are want of memory.
    pub fn new(alloc: Global, view: &'a View) -> Result<ViewIndex<'a>, AllocError>
        ensures { IfOk result (λ index. index ≡ view.now) }
    {
        if view.live.len() > u32::MAX as usize {
            return Err(AllocError);
        }
        Ok(ViewIndex {
            view,
            rows: ByPart::new(alloc, view.rows.as_slice())?,
            mail: ByPart::new(alloc, view.mail.as_slice())?,
            resets: ByPart::new(alloc, view.ideals.resets.as_slice())?,
        })
    }

    /// The view.
    pub fn view(&self) -> &'a View
        ensures { result.now ≡ self.now }
    {
        self.view
    }

    /// The rows of a part.
    pub fn rows_at(&self, part: PartId) -> &[Row]
        ensures { result.now ≡ items_at (λ row. row.part) part self.now.rows }
    {
        self.rows.at(part)
    }

    /// The reset flags of a part.
    pub fn resets_at(&self, part: PartId) -> &[(SessionId, PartId)]
        ensures { result.now ≡ items_at (λ flag. flag.1) part self.now.ideals.resets }
    {
        self.resets.at(part)
    }

    /// The state of a session's replica, if it has one.
    #[tactic(auto, using(crate::proofs::Found::state_found))]
    pub fn state_of(&self, session: SessionId, part: PartId) -> Option<StateId>
        ensures { result ≡ state_of self.now.rows session part }
    {
        state_on(self.rows.at(part), session, part)
    }

    /// The pending message of a session's part.
    #[tactic(auto, using(crate::proofs::Found::message_found))]
    pub fn message_of(&self, session: SessionId, part: PartId) -> Option<Message>
        ensures { result ≡ message_of self.now.mail session part }
    {
        message_on(self.mail.at(part), session, part)
    }

    /// Whether a session's replica is asked out of ERROR.
    #[tactic(auto, using(crate::proofs::Found::flag_found))]
    pub fn is_asked(&self, session: SessionId, part: PartId) -> bool
        ensures { result ≡ list_any (is_flag session part) self.now.ideals.resets }
    {
        has_flag(self.resets.at(part), session, part)
    }

    /// Whether a state is an end of a session's replica.
    #[tactic(auto, using(crate::proofs::Found::end_found))]
    pub fn has_end(&self, part: PartId, state: StateId, session: SessionId) -> bool
        ensures { result ≡ has_end self.now.rows self.now.mail part state session }
    {
        has_end(self.rows.at(part), self.mail.at(part), part, state, session)
    }

    /// How many live sessions have a state among the ends of a part.
    #[inline(always)]
    pub fn count_of(&self, part: PartId, state: StateId) -> u32
        ensures { result ≡ count_in self.now part state }
    {
        let live = self.view.live.as_slice();
        count_over(live, self.rows.at(part), self.mail.at(part), part, state)
    }

    #[tactic(auto, using(hx_cluster::proofs::Shown::model_in_or))]
    fn model_of(&self, models: &'a [Model], resource: ResourceId) -> Option<&'a Model>
        ensures found { option_copied result
            ≡ model_in models.now self.now.ideals.resources resource }
        ensures parts { unwrap_or (option_copied result) no_model
            ≡ model_of models.now self.now.ideals.resources resource }
    {
        match self.view.ideals.resources.get(resource.0 as usize) {
            Some(resource) => models.get(resource.model.0 as usize),
            None => None,
        }
    }

    fn replicas_of(&self, resource: ResourceId) -> u32
        ensures { result ≡ replicas_of self.now.ideals.resources resource }
    {
        match self.view.ideals.resources.get(resource.0 as usize) {
            Some(resource) => resource.ideal.replicas(),
            None => 0,
        }
    }

    /// How many replicas of a part may be in a state, if that is limited.
    pub fn limit_of(&self, models: &[Model], part: PartId, state: StateId) -> Option<u32>
        ensures { result
            ≡ limit_over models.now self.now.ideals.resources (length self.now.live) part state }
    {
        match self.model_of(models, part.resource) {
            Some(model) => limit(
                model.bound(state),
                self.replicas_of(part.resource),
                self.view.live.len() as u32,
            ),
            None => None,
        }
    }
}
