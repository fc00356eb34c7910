//! Controllers and participants: whether they are all there, and whether they rest.
ghost use Rattle.std.specs.Prelude.{◌≡◌, ◌+◌, ◌==◌, ◌&&◌, ◌↔◌, IsTrue, length, map};
ghost use Rattle.std.specs.List.{All, list_all};
ghost use Rattle.hx_control.specs.Controllers.{idle_controller};
ghost use Rattle.hx_replicas.specs.Participants.{all_idle};
ghost use Rattle.hx_worlds.specs.Agree.{is_below};
ghost use Rattle.hx_agree.specs.Tests.{are_in_order};

use hx_control::Controller;
use hx_handler::Factory;
use hx_replicas::Participant;

/// Whether there are so many controllers, by number.
pub(crate) fn are_controllers(count: u8, controllers: &[Controller]) -> bool
    ensures { result
        ≡ ((length controllers.now == count) && are_in_order 0 (map (λ k. k.id.0) controllers.now)) }
{
    if controllers.len() != count as usize {
        return false;
    }
    for (place, controller) in controllers.iter().enumerate() {
        if controller.id().0 as usize != place {
            return false;
        }
    }
    true
}

/// Whether there are so many participants, by instance.
pub(crate) fn are_participants<F: Factory>(count: u32, participants: &[Participant<F>]) -> bool
    ensures { result
        ≡ ((length participants.now == count)
        && are_in_order 0 (map (λ p. p.instance.0) participants.now)) }
{
    if participants.len() != count as usize {
        return false;
    }
    for (place, participant) in participants.iter().enumerate() {
        if participant.instance().0 as usize != place {
            return false;
        }
    }
    true
}

/// Whether no controller has a turn.
pub(crate) fn are_idle(controllers: &[Controller]) -> bool
    ensures { IsTrue result ↔ All (λ k. k ≡ idle_controller k.id) controllers.now }
{
    for controller in controllers {
        if !controller.idle() {
            return false;
        }
    }
    true
}

/// Whether no participant has a message accepted or out.
pub(crate) fn are_quiet<F: Factory>(participants: &[Participant<F>]) -> bool
    ensures { result ≡ list_all (λ p. all_idle p.plain) participants.now }
{
    participants.iter().all(|participant| participant.idle())
}

/// Whether a participant's session was opened, where so many were.
fn has_begun<F: Factory>(joined: u64, participant: &Participant<F>) -> bool
    ensures { result ≡ is_below (1 + joined) participant.now.plain.session }
{
    match participant.session() {
        Some(session) => session.0 <= joined,
        None => true,
    }
}

/// Whether the session of each participant was opened, where so many were.
pub(crate) fn have_begun<F: Factory>(joined: u64, participants: &[Participant<F>]) -> bool
    ensures { result ≡ list_all (λ p. is_below (1 + joined) p.plain.session) participants.now }
{
    participants
        .iter()
        .all(|participant| has_begun(joined, participant))
}
