//! How the faults of descriptions and scripts are named.
ghost use Rattle.std.specs.Prelude.{◌≡◌};
ghost use Rattle.hx_app.specs.KindNames.{desc_kind_name, script_kind_name};

use hx_forms::DescKind;
use hx_script::ScriptKind;

/// The name of a description's fault.
pub fn desc_kind_name(kind: DescKind) -> &'static str
    ensures { result.now ≡ desc_kind_name kind }
{
    match kind {
        DescKind::NoSeparator => "no-separator",
        DescKind::BadJson => "bad-json",
        DescKind::Missing => "missing",
        DescKind::WrongType => "wrong-type",
        DescKind::UnknownKey => "unknown-key",
        DescKind::TooMany => "too-many",
        DescKind::TooFew => "too-few",
        DescKind::OutOfRange => "out-of-range",
        DescKind::BadName => "bad-name",
        DescKind::Twice => "twice",
        DescKind::BadBound => "bad-bound",
        DescKind::ZeroBound => "zero-bound",
        DescKind::ReservedState => "reserved-state",
        DescKind::BadTransition => "bad-transition",
        DescKind::UnknownState => "unknown-state",
        DescKind::UnknownModel => "unknown-model",
        DescKind::UnknownInstance => "unknown-instance",
        DescKind::UnknownResource => "unknown-resource",
        DescKind::SelfLoop => "self-loop",
        DescKind::TwiceTransition => "twice-transition",
        DescKind::InitialBounded => "initial-bounded",
        DescKind::NoDrop => "no-drop",
        DescKind::CantReach => "cant-reach",
        DescKind::CantLeave => "cant-leave",
        DescKind::BadScope => "bad-scope",
        DescKind::BadMode => "bad-mode",
        DescKind::HalfTransition => "half-transition",
        DescKind::WrongMode => "wrong-mode",
        DescKind::PartCount => "part-count",
        DescKind::TwiceInList => "twice-in-list",
        DescKind::NoPart => "no-part",
        DescKind::RunOrMake => "run-or-make",
    }
}

/// The name of a script's fault.
pub fn script_kind_name(kind: ScriptKind) -> &'static str
    ensures { result.now ≡ script_kind_name kind }
{
    match kind {
        ScriptKind::NotUtf8 => "not-utf8",
        ScriptKind::LineTooLong => "line-too-long",
        ScriptKind::UnknownWord => "unknown-word",
        ScriptKind::WordCount => "word-count",
        ScriptKind::UnknownInstance => "unknown-instance",
        ScriptKind::UnknownController => "unknown-controller",
        ScriptKind::UnknownResource => "unknown-resource",
        ScriptKind::UnknownModel => "unknown-model",
        ScriptKind::UnknownState => "unknown-state",
        ScriptKind::BadName => "bad-name",
        ScriptKind::BadNumber => "bad-number",
        ScriptKind::BadMessage => "bad-message",
        ScriptKind::BadMode => "bad-mode",
        ScriptKind::BadPair => "bad-pair",
        ScriptKind::BadKind => "bad-kind",
    }
}
