//! Whether messages are good ones.
ghost use Rattle.std.specs.Prelude.{◌≡◌, true, IfOk};
ghost use Rattle.std.specs.List.{list_all};
ghost use Rattle.hx_lists.specs.Lists.{count};
ghost use Rattle.hx_cluster.specs.Ends.{is_message};
ghost use Rattle.hx_cluster.specs.Views.{is_good_message};
ghost use Rattle.hx_parts.specs.Parts.{HasSameAt};
ghost use Rattle.hx_formed.specs.Reads.{is_message_there};
ghost use Rattle.hx_formed.specs.Sessions.{are_distinct};

use crate::places::Place;
use crate::reads::{Shown, are_read};
use crate::{is_good_part, is_good_state};
use hx_cluster::{Message, Resource, View};
use hx_ids::{PartId, SessionId};
use hx_model::{DROPPED, Model};
use hx_parts::ByPart;
use std::alloc::{AllocError, Global};

impl Shown for Message {
    ghost session_of = { λ message. message.session };

    ghost is_there = { is_message_there };

    fn session(&self) -> SessionId {
        self.session
    }

    #[tactic(auto, using(crate::proofs::Placed::leads_there))]
    fn place_behind(&self, models: &[Model], resources: &[Resource], at: Place) -> Option<Place> {
        let after = at.next(models, resources, self.part, self.from)?;
        if self.to != DROPPED && !after.may_be(models, self.to) {
            return None;
        }
        Some(after)
    }
}

fn messages_on(mail: &[Message], session: SessionId, part: PartId) -> usize
    ensures { result ≡ count (is_message session part) mail.now }
{
    mail.iter().filter(|m| m.is_of(session, part)).count()
}

/// How many messages a session has of a part.
#[tactic(auto, using(crate::proofs::Counted::mail_counted))]
fn messages_of(mail: &[Message], kept: &ByPart<Message>, session: SessionId, part: PartId) -> usize
    requires { HasSameAt (λ (m : Message). m.part) mail.now kept.now }
    ensures { result ≡ count (is_message session part) mail.now }
{
    messages_on(kept.at(part), session, part)
}

fn is_good_message(models: &[Model], view: &View, kept: &ByPart<Message>, message: &Message) -> bool
    requires { HasSameAt (λ (m : Message). m.part) view.now.mail kept.now }
    ensures { result ≡ is_good_message models.now view.now message.now }
{
    is_good_part(view, message.session, message.part)
        && is_good_state(models, view, message.part, message.from)
        && (message.to == DROPPED || is_good_state(models, view, message.part, message.to))
        && messages_of(view.mail.as_slice(), kept, message.session, message.part) == 1
}

fn are_good_messages(models: &[Model], view: &View, kept: &ByPart<Message>) -> bool
    requires { HasSameAt (λ (m : Message). m.part) view.now.mail kept.now }
    ensures { result ≡ list_all (is_good_message models.now view.now) view.now.mail }
{
    let mut mail = view.mail.iter();
    mail.all(|m| is_good_message(models, view, kept, m))
}

/// Whether each message is a good one. For good messages that stand as they are read, and rise in
/// part, it takes no memory.
#[tactic(auto, using(crate::proofs::Read::mail_good))]
pub fn has_good_mail(alloc: Global, models: &[Model], view: &View) -> Result<bool, AllocError>
    requires { are_distinct view.now.live ≡ true }
    ensures { IfOk result (λ is.
        is ≡ list_all (is_good_message models.now view.now) view.now.mail) }
{
    let resources = view.ideals.resources.as_slice();
    if are_read(
        models,
        resources,
        view.live.as_slice(),
        view.mail.as_slice(),
    ) {
        return Ok(true);
    }
    let kept = ByPart::new(alloc, view.mail.as_slice())?;
    Ok(are_good_messages(models, view, &kept))
}
