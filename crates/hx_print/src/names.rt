//! The names in texts. A number without a name has the empty one.
ghost use Rattle.std.specs.Prelude.{◌≡◌, [], ◌∷◌, ℕ, codes};
ghost use Rattle.hx_print.specs.Texts;
ghost use Rattle.hx_print.specs.Tokens.{token_word};

use crate::Word;
use crate::lines::Token;
use hx_cluster::{Outcome, Resource, Spec};
use hx_ideal::{Mode, ModeKind};
use hx_ids::{ControllerId, InstanceId, ModelId, Names, ResourceId, SessionId, StateId};

/// The name at a place.
pub fn name_at(names: &Names, place: u32) -> &str
    ensures { result.now ≡ Texts.name_at names.now place }
{
    if place < names.len() {
        names.name(place)
    } else {
        ""
    }
}

/// An instance's name.
pub fn instance_name(spec: &Spec, instance: InstanceId) -> &str
    ensures { result.now ≡ Texts.instance_name spec.now instance }
{
    name_at(&spec.instances, instance.0)
}

/// A state's name.
pub fn state_name(spec: &Spec, state: StateId) -> &str
    ensures { result.now ≡ Texts.state_name spec.now state }
{
    name_at(&spec.states, state.0 as u32)
}

/// A model's name.
pub fn model_name(spec: &Spec, model: ModelId) -> &str
    ensures { result.now ≡ Texts.model_name spec.now model }
{
    name_at(&spec.model_names, model.0 as u32)
}

/// The name of a resource, from the names of all by number, which are places among the resource
/// names.
pub fn name_of_resource<'a>(spec: &'a Spec, names: &[u32], resource: ResourceId) -> &'a str
    ensures { result.now ≡ Texts.name_of_resource spec.now names.now resource }
{
    match names.get(resource.0 as usize) {
        Some(place) => name_at(&spec.resource_names, *place),
        None => "",
    }
}

/// The name of a resource, from the resources by number.
pub fn resource_name<'a>(spec: &'a Spec, resources: &[Resource], resource: ResourceId) -> &'a str
    ensures { result.now ≡ Texts.resource_name spec.now resources.now resource }
{
    match resources.get(resource.0 as usize) {
        Some(found) => name_at(&spec.resource_names, found.name),
        None => "",
    }
}

/// How a description and a script write a mode.
pub fn mode_name(mode: &Mode) -> &'static str
    ensures { result.now ≡ Texts.mode_name mode.now }
{
    match mode {
        Mode::Full => ModeKind::FullAuto.name(),
        Mode::Semi(_) => ModeKind::SemiAuto.name(),
        Mode::Custom(_) => ModeKind::Customized.name(),
    }
}

/// How the log writes the outcome of a run.
pub fn outcome_name(outcome: Outcome) -> &'static str
    ensures { result.now ≡ Texts.outcome_name outcome }
{
    match outcome {
        Outcome::Ok => "ok",
        Outcome::Failed => "failed",
    }
}

/// How a note writes a step of a turn.
pub fn word_name(word: Word) -> &'static str
    ensures { result.now ≡ Texts.word_name word }
{
    match word {
        Word::Begin => "begin",
        Word::Live => "live",
        Word::Mail => "mail",
        Word::States => "states",
        Word::Ideals => "ideals",
        Word::Send => "send",
        Word::Post => "post",
    }
}

/// A session, or `-`.
pub(crate) fn session_or_dash(session: Option<SessionId>) -> Token<'static>
    ensures { token_word result ≡ Texts.or_dash Texts.session_name session }
{
    match session {
        Some(s) => Token::Session(s),
        None => Token::Text("-"),
    }
}

/// A controller, or `-`.
pub(crate) fn controller_or_dash(controller: Option<ControllerId>) -> Token<'static>
    ensures { token_word result ≡ Texts.or_dash Texts.controller_name controller }
{
    match controller {
        Some(k) => Token::Controller(k),
        None => Token::Text("-"),
    }
}

/// A state, or `-`.
pub(crate) fn state_or_dash(spec: &Spec, state: Option<StateId>) -> &str
    ensures { result.now ≡ Texts.or_dash (Texts.state_name spec.now) state }
{
    match state {
        Some(t) => state_name(spec, t),
        None => "-",
    }
}
