//! The words of a log that are numbers, and those that a letter and a number make.
ghost use Rattle.std.specs.Prelude.{◌≡◌};
ghost use Rattle.hx_script.specs.Logs;

use hx_ids::{Epoch, MsgId, PassNo, ResourceId, SessionId};
use hx_script::{ScriptKind, number_word, numbered_by, small_number_word};

/// A number of 32 bits.
pub fn short_number(word: &str) -> Result<u32, ScriptKind>
    ensures { result ≡ Logs.short_number word.now }
{
    small_number_word(0, u32::MAX, word)
}

/// A number of 64 bits.
pub fn long_number(word: &str) -> Result<u64, ScriptKind>
    ensures { result ≡ Logs.long_number word.now }
{
    number_word(0, u64::MAX, word)
}

/// A session: `s` and its number.
pub fn session_word(word: &str) -> Result<SessionId, ScriptKind>
    ensures { result ≡ Logs.session_word word.now }
{
    numbered_by('s', word)
        .map(SessionId)
        .ok_or(ScriptKind::BadNumber)
}

/// A message: `m` and its number.
pub fn message_word(word: &str) -> Result<MsgId, ScriptKind>
    ensures { result ≡ Logs.message_id_word word.now }
{
    numbered_by('m', word)
        .map(MsgId)
        .ok_or(ScriptKind::BadMessage)
}

/// An epoch: `e` and its number.
pub fn epoch_word(word: &str) -> Result<Epoch, ScriptKind>
    ensures { result ≡ Logs.epoch_word word.now }
{
    numbered_by('e', word)
        .map(Epoch)
        .ok_or(ScriptKind::BadNumber)
}

/// A pass: `p` and its number.
pub fn pass_word(word: &str) -> Result<PassNo, ScriptKind>
    ensures { result ≡ Logs.pass_word word.now }
{
    numbered_by('p', word)
        .map(PassNo)
        .ok_or(ScriptKind::BadNumber)
}

/// A resource's number.
pub fn resource_number(word: &str) -> Result<ResourceId, ScriptKind>
    ensures { result ≡ Logs.resource_number word.now }
{
    Ok(ResourceId(short_number(word)?))
}

/// A session, or `-` for none.
pub fn session_or_dash(word: &str) -> Result<Option<SessionId>, ScriptKind>
    ensures { result ≡ Logs.unless_dash Logs.session_word word.now }
{
    if word == "-" {
        return Ok(None);
    }
    Ok(Some(session_word(word)?))
}
