//! Notes on script lines.
ghost use Rattle.std.specs.Prelude.{◌≡◌, [], ◌∷◌, codes};
ghost use Rattle.hx_text.specs.Texts.{Prints};
ghost use Rattle.hx_print.specs.Tokens;
ghost use Rattle.hx_print.specs.Texts;

use crate::Note;
use crate::lines::{Token, print_line};
use crate::names::{controller_or_dash, session_or_dash, state_name, state_or_dash, word_name};
use hx_cluster::{Spec, StepFault};
use hx_ideal::IdealFault;
use hx_ids::{ControllerId, Epoch};
use hx_text::Page;
use std::alloc::AllocError;

/// Prints a note of one word.
fn print_short(line: u32, name: &str, page: &mut Page) -> Result<(), AllocError>
    ensures { Prints (Texts.note_line line (name.now ∷ [])) page.old result page.new }
{
    print_line("!", &[Token::Number(line as u64), Token::Text(name)], page)
}

/// Prints a note of a word and what it tells.
fn print_with<'a>(
    line: u32,
    name: &'a str,
    told: Token<'a>,
    page: &mut Page,
) -> Result<(), AllocError>
    ensures { Prints (Texts.note_line line (name.now ∷ Tokens.token_word told.entry ∷ []))
        page.old result page.new }
{
    let line = Token::Number(line as u64);
    print_line("!", &[line, Token::Text(name), told], page)
}

/// Prints the note of a faulty list or map. Other faults have none.
fn print_ideal_fault(line: u32, fault: IdealFault, page: &mut Page) -> Result<(), AllocError>
    ensures { Prints (Texts.note_line line (Texts.ideal_fault_words fault))
        page.old result page.new }
{
    match fault {
        IdealFault::UnknownState { place, .. } => {
            print_with(line, "unknown-state", Token::Number(place as u64), page)
        }
        IdealFault::TwiceInList { place, .. } => {
            print_with(line, "twice-in-list", Token::Number(place as u64), page)
        }
        IdealFault::ZeroReplicas
        | IdealFault::TooManyReplicas
        | IdealFault::ZeroParts
        | IdealFault::TooManyParts
        | IdealFault::PartCount { .. }
        | IdealFault::UnknownInstance { .. } => Ok(()),
    }
}

/// Prints the note that another controller leads.
fn print_led_by(
    line: u32,
    controller: ControllerId,
    epoch: Epoch,
    page: &mut Page,
) -> Result<(), AllocError>
    ensures { Prints
        (Texts.note_line line
        (codes "led-by" ∷ Texts.controller_name controller ∷ Texts.epoch_name epoch ∷ []))
        page.old result page.new }
{
    let line = Token::Number(line as u64);
    let [controller, epoch] = [Token::Controller(controller), Token::Epoch(epoch)];
    print_line("!", &[line, Token::Text("led-by"), controller, epoch], page)
}

/// Prints the note of a refused step.
fn print_step_fault(
    line: u32,
    fault: StepFault,
    spec: &Spec,
    page: &mut Page,
) -> Result<(), AllocError>
    ensures { Prints (Texts.note_line line (Texts.step_fault_words spec.now fault))
        page.old result page.new }
{
    match fault {
        StepFault::AlreadyLive { session } => {
            print_with(line, "already-live", Token::Session(session), page)
        }
        StepFault::NotLive => print_short(line, "not-live", page),
        StepFault::ClockEnd => print_short(line, "clock-end", page),
        StepFault::AlreadySo => print_short(line, "already-so", page),
        StepFault::NameInUse { resource } => {
            print_with(line, "name-in-use", Token::Number(resource.0 as u64), page)
        }
        StepFault::TooMany => print_short(line, "too-many", page),
        StepFault::AlreadyDropped => print_short(line, "already-dropped", page),
        StepFault::ResourceDropped => print_short(line, "resource-dropped", page),
        StepFault::WrongMode => print_short(line, "wrong-mode", page),
        StepFault::NoPart { parts } => {
            print_with(line, "no-part", Token::Number(parts as u64), page)
        }
        StepFault::Ideal(fault) => print_ideal_fault(line, fault, page),
        StepFault::NotError { state } => {
            print_with(
                line,
                "not-error",
                Token::Text(state_or_dash(spec, state)),
                page,
            )
        }
        StepFault::AlreadyAsked => print_short(line, "already-asked", page),
        StepFault::LedBy { controller, epoch } => print_led_by(line, controller, epoch, page),
        StepFault::ControllerDown => print_short(line, "controller-down", page),
        StepFault::OutOfMemory => Ok(()),
    }
}

/// Prints a note on a script line. Of faults that a line can't meet, want of memory among them, it
/// prints nothing.
pub fn print_note(line: u32, note: &Note, spec: &Spec, page: &mut Page) -> Result<(), AllocError>
    ensures { Prints (Texts.note_text spec.now line note.now) page.old result page.new }
{
    match note {
        Note::Step(fault) => print_step_fault(line, *fault, spec, page),
        Note::NoResource => print_short(line, "no-resource", page),
        Note::NotLeader { led_by } => {
            print_with(line, "not-leader", controller_or_dash(*led_by), page)
        }
        Note::NoLeader => print_short(line, "no-leader", page),
        Note::OutOfTurn(word) => {
            print_with(line, "out-of-turn", Token::Text(word_name(*word)), page)
        }
        Note::Fenced { now } => print_with(line, "fenced", Token::Number(now.0), page),
        Note::NoMessage => print_short(line, "no-message", page),
        Note::OtherSession { mine } => {
            print_with(line, "other-session", session_or_dash(*mine), page)
        }
        Note::Running { id } => print_with(line, "running", Token::Message(*id), page),
        Note::Repeat { last } => print_with(line, "repeat", Token::Message(*last), page),
        Note::WrongFrom { has } => {
            print_with(
                line,
                "wrong-from",
                Token::Text(state_name(spec, *has)),
                page,
            )
        }
        Note::NoJob => print_short(line, "no-job", page),
        Note::SessionEnded => print_short(line, "session-ended", page),
    }
}
