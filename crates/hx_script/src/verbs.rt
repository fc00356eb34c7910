//! The words that begin a script line.
ghost use Rattle.std.specs.Prelude.{◌≡◌, find};
ghost use Rattle.std.specs.Str.{bytes_eq};
ghost use Rattle.hx_script.specs.Grammar.{verb_name, is_verb, verb_of};

use crate::faults::ScriptKind;

/// The first word of a script line.
#[derive(Clone, Copy)]
pub enum Verb {
    Join,
    Beat,
    Drain,
    Undrain,
    Tick,
    Expire,
    Die,
    Add,
    Drop,
    List,
    Map,
    Reset,
    Lead,
    Stop,
    Start,
    Begin,
    Read,
    Send,
    Post,
    Pass,
    Fetch,
    Deliver,
    Take,
    Write,
    Ack,
    Work,
    Settle,
    View,
    Route,
    Summary,
}

const VERBS: [Verb; 30] = [
    Verb::Join,
    Verb::Beat,
    Verb::Drain,
    Verb::Undrain,
    Verb::Tick,
    Verb::Expire,
    Verb::Die,
    Verb::Add,
    Verb::Drop,
    Verb::List,
    Verb::Map,
    Verb::Reset,
    Verb::Lead,
    Verb::Stop,
    Verb::Start,
    Verb::Begin,
    Verb::Read,
    Verb::Send,
    Verb::Post,
    Verb::Pass,
    Verb::Fetch,
    Verb::Deliver,
    Verb::Take,
    Verb::Write,
    Verb::Ack,
    Verb::Work,
    Verb::Settle,
    Verb::View,
    Verb::Route,
    Verb::Summary,
];

impl Verb {
    /// How a script writes it.
    pub fn name(self) -> &'static str
        ensures { result.now ≡ verb_name self }
    {
        match self {
            Verb::Join => "join",
            Verb::Beat => "beat",
            Verb::Drain => "drain",
            Verb::Undrain => "undrain",
            Verb::Tick => "tick",
            Verb::Expire => "expire",
            Verb::Die => "die",
            Verb::Add => "add",
            Verb::Drop => "drop",
            Verb::List => "list",
            Verb::Map => "map",
            Verb::Reset => "reset",
            Verb::Lead => "lead",
            Verb::Stop => "stop",
            Verb::Start => "start",
            Verb::Begin => "begin",
            Verb::Read => "read",
            Verb::Send => "send",
            Verb::Post => "post",
            Verb::Pass => "pass",
            Verb::Fetch => "fetch",
            Verb::Deliver => "deliver",
            Verb::Take => "take",
            Verb::Write => "write",
            Verb::Ack => "ack",
            Verb::Work => "work",
            Verb::Settle => "settle",
            Verb::View => "view",
            Verb::Route => "route",
            Verb::Summary => "summary",
        }
    }

    /// Whether a script writes it so.
    fn is(self, word: &str) -> bool
        ensures { result ≡ is_verb word.now self }
    {
        same_word(self.name(), word)
    }

    /// The verb that a script writes so.
    pub fn of(word: &str) -> Result<Verb, ScriptKind>
        ensures { result ≡ verb_of word.now }
    {
        verb_among(&VERBS, word).ok_or(ScriptKind::UnknownWord)
    }
}

/// Whether words are the same. Most that aren't differ in their first bytes.
pub fn same_word(a: &str, b: &str) -> bool
    ensures { result ≡ bytes_eq a.now b.now }
{
    match (a.as_bytes(), b.as_bytes()) {
        ([x, ..], [y, ..]) if x != y => false,
        _ => a == b,
    }
}

/// The first of some verbs that a script writes so.
fn verb_among(verbs: &[Verb], word: &str) -> Option<Verb>
    ensures { result ≡ find (is_verb word.now) verbs.now }
{
    verbs.iter().copied().find(|v| v.is(word))
}
