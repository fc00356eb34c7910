//! What an input asks for, or why it isn't run.
ghost use Rattle.std.specs.Prelude.{◌≡◌, ◌≤◌, length, Ok, None, IfOk, IfErr};
ghost use Rattle.hx_text.specs.Lines.{lines_of};
ghost use Rattle.hx_script.specs.Parsing.{IsReadable};
ghost use Rattle.hx_app.specs.Constants.{most_bytes};
ghost use Rattle.hx_app.specs.Input.{text_fault, script_in, scenario_of};
ghost use Rattle.hx_app.specs.Simulation.{IsGiven};
ghost use Rattle.hx_app.specs.Refusals.{Refuses, IsTextFault, RefusesScript};

use crate::statuses::MOST_LINE;
use hx_cluster::Spec;
use hx_desc::{DescFault, DescRefusal, read};
use hx_lists::Seq;
use hx_script::{Line, ScriptFault, ScriptKind, ScriptRefusal, parse};
use hx_text::{Lines, TextFault, cut, split_lines};
use std::alloc::Global;

/// A cluster and what is to be done on it.
#[derive(Drop)]
pub(crate) struct Scenario {
    /// The cluster's description, with the names that the script brings.
    pub spec: Spec,
    pub lines: Seq<Line>,
}

/// Why an input isn't run: the first fault of its description, or else of its script.
#[derive(Debug, Drop)]
pub(crate) enum InputFault {
    Description(DescFault),
    Script(ScriptFault),
}

#[derive(Debug, Drop)]
pub(crate) enum InputRefusal {
    Fault(InputFault),
    OutOfMemory,
}

impl From<DescRefusal> for InputRefusal {
    ghost use Rattle.std.specs.Prelude.{◌≡◌};
    ghost use Rattle.hx_app.specs.Refusals.{by_description};

    ghost from_gives = { λ refusal e. e ≡ by_description refusal };

    fn from(refusal: DescRefusal) -> InputRefusal {
        match refusal {
            DescRefusal::Fault(fault) => InputRefusal::Fault(InputFault::Description(fault)),
            DescRefusal::OutOfMemory => InputRefusal::OutOfMemory,
        }
    }
}

impl From<ScriptRefusal> for InputRefusal {
    ghost use Rattle.std.specs.Prelude.{◌≡◌};
    ghost use Rattle.hx_app.specs.Refusals.{by_script};

    ghost from_gives = { λ refusal e. e ≡ by_script refusal };

    fn from(refusal: ScriptRefusal) -> InputRefusal {
        match refusal {
            ScriptRefusal::Fault(fault) => InputRefusal::Fault(InputFault::Script(fault)),
            ScriptRefusal::OutOfMemory => InputRefusal::OutOfMemory,
        }
    }
}

/// The lines of a script, as texts.
fn texts(alloc: Global, script: &[u8]) -> Result<Lines, ScriptRefusal>
    requires { length script.now ≤ most_bytes }
    ensures lines { IfOk result (λ lines. lines ≡ lines_of script.now) }
    ensures ok { IfOk result (λ _. text_fault script.now ≡ None) }
    ensures err { IfErr result (IsTextFault (text_fault script.now)) }
{
    match split_lines(alloc, script, MOST_LINE) {
        Ok(lines) => Ok(lines),
        Err(TextFault::NotUtf8 { line }) => Err(ScriptRefusal::Fault(ScriptFault {
            line,
            kind: ScriptKind::NotUtf8,
        })),
        Err(TextFault::LineTooLong { line }) => Err(ScriptRefusal::Fault(ScriptFault {
            line,
            kind: ScriptKind::LineTooLong,
        })),
        Err(TextFault::OutOfMemory) => Err(ScriptRefusal::OutOfMemory),
    }
}

/// Reads a script. The names that it brings are added to the description.
fn read_script(alloc: Global, script: &[u8], spec: &mut Spec) -> Result<Vec<Line>, ScriptRefusal>
    requires short { length script.now ≤ most_bytes }
    requires readable { IsReadable spec.old (lines_of script.now) }
    ensures ok { IfOk result (λ lines. script_in script.now spec.old ≡ Ok (lines.items, spec.new)) }
    ensures err { IfErr result (RefusesScript (script_in script.now spec.old)) }
{
    let texts = texts(alloc, script)?;
    parse(alloc, &texts, spec)
}

/// What an input asks for: lines that its cluster can be given in turn.
pub(crate) fn read_scenario(alloc: Global, bytes: &[u8]) -> Result<Scenario, InputRefusal>
    requires { length bytes.now ≤ most_bytes }
    ensures ok { IfOk result (λ scenario. scenario_of bytes.now ≡ Ok scenario) }
    ensures given { IfOk result IsGiven }
    ensures err { IfErr result (Refuses (scenario_of bytes.now)) }
{
    let mut spec = read(alloc, bytes)?;
    let Some(input) = cut(bytes) else {
        unreachable!();
    };
    let lines = read_script(alloc, input.script, &mut spec)?;
    Ok(Scenario {
        spec,
        lines: Seq::from_vec(lines),
    })
}
