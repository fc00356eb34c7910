//! Lists as they are read: session by session, and what is of a session in order of part.
ghost use Rattle.std.specs.Prelude.{◌≡◌, ◌&&◌, not, true, false, None, Some, MatchOption};
ghost use Rattle.hx_cluster.specs.Ends.{part_before};
ghost use Rattle.hx_formed.specs.Places.{from_of, IsAt};
ghost use Rattle.hx_formed.specs.Reads.{first_part, part_after, behind, are_read};

use crate::places::Place;
use hx_cluster::Resource;
use hx_ids::{InstanceId, SessionId};
use hx_model::Model;
use hx_parts::OfPart;

/// What a view shows of a session's replica: a row, or a message.
pub(crate) trait Shown: OfPart {
    ghost use Rattle.std.specs.Prelude.{Bool, List};
    ghost use Rattle.hx_ids.specs.declared.SessionId.{SessionId};
    ghost use Rattle.hx_model.specs.declared.ModelParts.{ModelParts};
    ghost use Rattle.hx_cluster.specs.declared.description.Resource.{Resource};

    ghost session_of: { Self → SessionId };

    ghost is_there: { List ModelParts → List Resource → Self → Bool };

    /// The session that it is of.
    fn session(&self) -> SessionId
        ensures { result ≡ session_of self.now };

    /// The place behind it, if it may be next.
    fn place_behind(&self, models: &[Model], resources: &[Resource], at: Place) -> Option<Place>
        requires { IsAt models.now resources.now at }
        ensures { let is = not (part_before (Self.part_of self.now) (from_of at))
            && is_there models.now resources.now self.now in
            MatchOption result (is ≡ false) (λ after. (is ≡ true)
            × (from_of after ≡ part_after (Self.part_of self.now))
            × IsAt models.now resources.now after) };
}

/// What stands behind the items of a session at the front, where those rise in part and are in
/// place.
fn behind<'a, T: Shown>(
    models: &[Model],
    resources: &[Resource],
    session: SessionId,
    items: &'a [T],
) -> Option<&'a [T]>
    ensures { let after = behind T.session_of T.part_of (T.is_there models.now resources.now)
        session first_part items.now in
        MatchOption result (after ≡ None) (λ rest. after ≡ Some rest.now) }
{
    let mut at = Place::first(models, resources);
    for (place, item) in items.iter().enumerate() {
        if item.session() != session {
            return Some(&items[place..]);
        }
        at = item.place_behind(models, resources, at)?;
    }
    Some(&items[items.len()..])
}

/// Whether items are those of these sessions one after another, which rise in part and are in
/// place.
#[tactic(auto, using(crate::proofs::Read::nothing_read, crate::proofs::Read::all_read))]
pub(crate) fn are_read<T: Shown>(
    models: &[Model],
    resources: &[Resource],
    live: &[(SessionId, InstanceId)],
    items: &[T],
) -> bool
    ensures { result ≡ are_read T.session_of T.part_of (T.is_there models.now resources.now)
        live.now (Some items.now) }
{
    let mut rest = items;
    for shown in live {
        match behind(models, resources, shown.0, rest) {
            Some(behind) => rest = behind,
            None => return false,
        }
    }
    rest.is_empty()
}
