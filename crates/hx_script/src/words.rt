//! The words of a script line, each by what stands there.
ghost use Rattle.std.specs.Prelude.{◌≡◌, ◌≤◌, ◌<◌, length};
ghost use Rattle.hx_ids.specs.Names.{place_of, place_after};
ghost use Rattle.hx_script.specs.Grammar;

use crate::ReadKind;
use crate::faults::ScriptKind;
use crate::modes::mode_number;
use hx_cluster::Spec;
use hx_ideal::ModeKind;
use hx_ids::{ControllerId, InstanceId, ModelId, MsgId, Names, StateId};
use hx_text::{is_name, read_u64};

/// An instance's name.
pub fn instance_word(spec: &Spec, word: &str) -> Result<InstanceId, ScriptKind>
    ensures { result ≡ Grammar.instance_word spec.now word.now }
{
    spec.instances
        .find(word)
        .map(InstanceId)
        .ok_or(ScriptKind::UnknownInstance)
}

/// A resource's name, by its place among the resource names.
pub fn resource_word(spec: &Spec, word: &str) -> Result<u32, ScriptKind>
    ensures { result ≡ Grammar.resource_word spec.now word.now }
{
    spec.resource_names
        .find(word)
        .ok_or(ScriptKind::UnknownResource)
}

/// The place of a name among few, or the fault that it is unknown.
fn small_place(names: &Names, unknown: ScriptKind, word: &str) -> Result<u8, ScriptKind>
    requires { length names.now ≤ 256 }
    ensures { result ≡ Grammar.or_fault unknown (place_of names.now word.now) }
{
    match names.find(word) {
        Some(place) => Ok(place as u8),
        None => Err(unknown),
    }
}

/// A model's name.
pub fn model_word(spec: &Spec, word: &str) -> Result<ModelId, ScriptKind>
    requires { length spec.now.model_names ≤ 256 }
    ensures { result ≡ Grammar.model_word spec.now word.now }
{
    small_place(&spec.model_names, ScriptKind::UnknownModel, word).map(ModelId)
}

/// A state's name.
pub fn state_word(spec: &Spec, word: &str) -> Result<StateId, ScriptKind>
    requires { length spec.now.states ≤ 256 }
    ensures { result ≡ Grammar.state_word spec.now word.now }
{
    small_place(&spec.states, ScriptKind::UnknownState, word).map(StateId)
}

/// The name of a resource to be added, by the place that it has or gets.
pub fn name_word(spec: &Spec, word: &str) -> Result<u32, ScriptKind>
    ensures { result ≡ Grammar.name_word spec.now word.now }
{
    if !is_name(word) {
        return Err(ScriptKind::BadName);
    }
    Ok(place_after(&spec.resource_names, word))
}

/// The place that a name has, or gets as the last.
pub fn place_after(names: &Names, name: &str) -> u32
    ensures { result ≡ place_after names.now name.now }
{
    match names.find(name) {
        Some(place) => place,
        None => names.len(),
    }
}

/// A number from a least to a most.
pub fn number_word(least: u64, most: u64, word: &str) -> Result<u64, ScriptKind>
    ensures { result ≡ Grammar.number_word least most word.now }
{
    match read_u64(word) {
        Some(n) if least <= n && n <= most => Ok(n),
        _ => Err(ScriptKind::BadNumber),
    }
}

/// A number of 32 bits from a least to a most.
pub fn small_number_word(least: u32, most: u32, word: &str) -> Result<u32, ScriptKind>
    ensures { result ≡ Grammar.number_word least most word.now }
{
    match number_word(least as u64, most as u64, word) {
        Ok(n) => Ok(n as u32),
        Err(kind) => Err(kind),
    }
}

/// A partition's number.
pub fn part_word(word: &str) -> Result<u32, ScriptKind>
    ensures { result ≡ Grammar.part_word word.now }
{
    small_number_word(0, u32::MAX, word)
}

/// A resource's name and a partition's number.
pub fn part_words(spec: &Spec, name: &str, part: &str) -> Result<(u32, u32), ScriptKind>
    ensures { result ≡ Grammar.part_words spec.now name.now part.now }
{
    let name = resource_word(spec, name)?;
    let part = part_word(part)?;
    Ok((name, part))
}

/// The number behind a letter.
pub fn numbered_by(letter: char, word: &str) -> Option<u64>
    requires { letter < 128 }
    ensures { result ≡ Grammar.numbered_by letter word.now }
{
    read_u64(word.strip_prefix(letter)?)
}

/// A controller, which `c` and a number from 1 name.
pub fn controller_word(spec: &Spec, word: &str) -> Result<ControllerId, ScriptKind>
    ensures { result ≡ Grammar.controller_word spec.now word.now }
{
    match numbered_by('c', word) {
        Some(n) if 1 <= n && n <= spec.controllers as u64 => Ok(ControllerId((n - 1) as u8)),
        _ => Err(ScriptKind::UnknownController),
    }
}

/// A message, which `m` and a number from 1 name.
pub fn message_word(word: &str) -> Result<MsgId, ScriptKind>
    ensures { result ≡ Grammar.message_word word.now }
{
    match numbered_by('m', word) {
        Some(n) if 1 <= n => Ok(MsgId(n)),
        _ => Err(ScriptKind::BadMessage),
    }
}

/// A mode, by its number.
pub fn mode_word(word: &str) -> Result<u8, ScriptKind>
    ensures { result ≡ Grammar.mode_word word.now }
{
    match ModeKind::from_name(word) {
        Some(kind) => Ok(mode_number(kind)),
        None => Err(ScriptKind::BadMode),
    }
}

/// Which of a turn's reads.
pub fn read_kind_word(word: &str) -> Result<ReadKind, ScriptKind>
    ensures { result ≡ Grammar.read_kind_word word.now }
{
    if word == "live" {
        Ok(ReadKind::Live)
    } else if word == "mail" {
        Ok(ReadKind::Mail)
    } else if word == "states" {
        Ok(ReadKind::States)
    } else if word == "ideals" {
        Ok(ReadKind::Ideals)
    } else {
        Err(ScriptKind::BadKind)
    }
}

/// An instance and a state, with a `=` between.
pub fn pair_word(spec: &Spec, word: &str) -> Result<(InstanceId, StateId), ScriptKind>
    requires { length spec.now.states ≤ 256 }
    ensures { result ≡ Grammar.pair_word spec.now word.now }
{
    let Some((instance, state)) = word.split_once('=') else {
        return Err(ScriptKind::BadPair);
    };
    let instance = instance_word(spec, instance)?;
    let state = state_word(spec, state)?;
    Ok((instance, state))
}
