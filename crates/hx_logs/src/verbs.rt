//! The words that begin a log's entries.
ghost use Rattle.std.specs.Prelude.{◌≡◌, find};
ghost use Rattle.hx_script.specs.Logs.{log_verb_name, is_log_verb, log_verb_of};

use hx_script::{LogVerb, ScriptKind, same_word};

const VERBS: [LogVerb; 26] = [
    LogVerb::Line,
    LogVerb::Join,
    LogVerb::End,
    LogVerb::Beat,
    LogVerb::Tick,
    LogVerb::Drain,
    LogVerb::Undrain,
    LogVerb::Add,
    LogVerb::Drop,
    LogVerb::List,
    LogVerb::Map,
    LogVerb::Reset,
    LogVerb::Lead,
    LogVerb::Stop,
    LogVerb::Start,
    LogVerb::Begin,
    LogVerb::Live,
    LogVerb::Mail,
    LogVerb::States,
    LogVerb::Ideals,
    LogVerb::Send,
    LogVerb::Post,
    LogVerb::Fetch,
    LogVerb::Take,
    LogVerb::Write,
    LogVerb::Ack,
];

/// How a log writes a verb.
fn verb_name(verb: LogVerb) -> &'static str
    ensures { result.now ≡ log_verb_name verb }
{
    match verb {
        LogVerb::Line => "line",
        LogVerb::Join => "join",
        LogVerb::End => "end",
        LogVerb::Beat => "beat",
        LogVerb::Tick => "tick",
        LogVerb::Drain => "drain",
        LogVerb::Undrain => "undrain",
        LogVerb::Add => "add",
        LogVerb::Drop => "drop",
        LogVerb::List => "list",
        LogVerb::Map => "map",
        LogVerb::Reset => "reset",
        LogVerb::Lead => "lead",
        LogVerb::Stop => "stop",
        LogVerb::Start => "start",
        LogVerb::Begin => "begin",
        LogVerb::Live => "live",
        LogVerb::Mail => "mail",
        LogVerb::States => "states",
        LogVerb::Ideals => "ideals",
        LogVerb::Send => "send",
        LogVerb::Post => "post",
        LogVerb::Fetch => "fetch",
        LogVerb::Take => "take",
        LogVerb::Write => "write",
        LogVerb::Ack => "ack",
    }
}

/// Whether a log writes a verb so.
fn is_written(verb: LogVerb, word: &str) -> bool
    ensures { result ≡ is_log_verb word.now verb }
{
    same_word(verb_name(verb), word)
}

/// The first of some verbs that a log writes so.
fn verb_among(verbs: &[LogVerb], word: &str) -> Option<LogVerb>
    ensures { result ≡ find (is_log_verb word.now) verbs.now }
{
    verbs.iter().copied().find(|v| is_written(*v, word))
}

/// The verb that a log writes so.
pub fn verb_of(word: &str) -> Result<LogVerb, ScriptKind>
    ensures { result ≡ log_verb_of word.now }
{
    verb_among(&VERBS, word).ok_or(ScriptKind::UnknownWord)
}
