//! Script lines, printed.
ghost use Rattle.std.specs.Prelude.{◌≡◌, ℕ, List, [], ◌∷◌, drop, decimal, Ok, true};
ghost use Rattle.std.specs.List.{AllByRecursion};
ghost use Rattle.hx_text.specs.Texts.{Prints};
ghost use Rattle.hx_print.specs.Texts;
ghost use Rattle.hx_print.specs.Tokens.{rest_words};
ghost use Rattle.hx_cluster.specs.declared.description.Spec.{Spec};
ghost use Rattle.hx_script.specs.declared.Line.{Line};
ghost use Rattle.hx_script.specs.declared.What.{What};
ghost use Rattle.hx_script.specs.declared.What.TheVariants as asks;
ghost use Rattle.hx_script.specs.declared.verbs.Verb.TheVariants as verbs;
ghost use Rattle.hx_script.specs.Grammar.{verb_name, script_of};
ghost use Rattle.hx_script.specs.LineTexts;

use crate::modes::mode_numbered;
use crate::verbs::Verb;
use crate::{Apart, Line, ReadKind, What};
use hx_cluster::Spec;
use hx_ids::{ControllerId, InstanceId, ModelId, MsgId, StateId};
use hx_print::{
    Rest, Token, instance_name, model_name, name_at, print_line as print_short_line,
    print_long_line, state_name,
};
use hx_text::Page;
use std::alloc::AllocError;

/// How a script writes the mode that has a number.
fn mode_text(number: u8) -> &'static str
    ensures { result.now ≡ LineTexts.mode_text number }
{
    match mode_numbered(number) {
        Some(kind) => kind.name(),
        None => "",
    }
}

/// How a script writes one of a turn's reads.
fn read_kind_text(kind: ReadKind) -> &'static str
    ensures { result.now ≡ LineTexts.read_kind_text kind }
{
    match kind {
        ReadKind::Live => "live",
        ReadKind::Mail => "mail",
        ReadKind::States => "states",
        ReadKind::Ideals => "ideals",
    }
}

/// Prints a verb alone.
fn print_bare(verb: Verb, page: &mut Page) -> Result<(), AllocError>
    ensures { Prints (Texts.line_of (verb_name verb ∷ [])) page.old result page.new }
{
    print_short_line(verb.name(), &[], page)
}

/// Prints a number of ticks.
fn print_tick(n: u64, page: &mut Page) -> Result<(), AllocError>
    ensures { Prints (Texts.line_of (verb_name verbs.Tick ∷ decimal n ∷ []))
        page.old result page.new }
{
    print_short_line(Verb::Tick.name(), &[Token::Number(n)], page)
}

/// Prints a verb with an instance.
fn print_with_instance(
    verb: Verb,
    instance: InstanceId,
    spec: &Spec,
    page: &mut Page,
) -> Result<(), AllocError>
    ensures { Prints (Texts.line_of (verb_name verb ∷ Texts.instance_name spec.now instance ∷ []))
        page.old result page.new }
{
    let instance = Token::Text(instance_name(spec, instance));
    print_short_line(verb.name(), &[instance], page)
}

/// Prints a verb with a controller.
fn print_with_controller(
    verb: Verb,
    controller: ControllerId,
    page: &mut Page,
) -> Result<(), AllocError>
    ensures { Prints (Texts.line_of (verb_name verb ∷ Texts.controller_name controller ∷ []))
        page.old result page.new }
{
    print_short_line(verb.name(), &[Token::Controller(controller)], page)
}

/// Prints a verb with an instance and a message.
fn print_with_message(
    verb: Verb,
    instance: InstanceId,
    id: MsgId,
    spec: &Spec,
    page: &mut Page,
) -> Result<(), AllocError>
    ensures { Prints
        (Texts.line_of (verb_name verb ∷
        Texts.instance_name spec.now instance ∷ Texts.message_name id ∷ []))
        page.old result page.new }
{
    let instance = Token::Text(instance_name(spec, instance));
    print_short_line(verb.name(), &[instance, Token::Message(id)], page)
}

/// Prints a new resource.
fn print_add(
    name: u32,
    model: ModelId,
    replicas: u32,
    parts: u32,
    mode: u8,
    spec: &Spec,
    page: &mut Page,
) -> Result<(), AllocError>
    ensures { Prints (LineTexts.line_text spec.now (asks.Add name model replicas parts mode))
        page.old result page.new }
{
    let name = Token::Text(name_at(&spec.resource_names, name));
    let model = Token::Text(model_name(spec, model));
    let replicas = Token::Number(replicas as u64);
    let parts = Token::Number(parts as u64);
    let mode = Token::Text(mode_text(mode));
    print_short_line(
        Verb::Add.name(),
        &[name, model, replicas, parts, mode],
        page,
    )
}

/// Prints that a resource is dropped.
fn print_drop(name: u32, spec: &Spec, page: &mut Page) -> Result<(), AllocError>
    ensures { Prints (LineTexts.line_text spec.now (asks.Drop name)) page.old result page.new }
{
    let name = Token::Text(name_at(&spec.resource_names, name));
    print_short_line(Verb::Drop.name(), &[name], page)
}

/// Prints a verb with a part and what stands behind it.
fn print_with_part(
    verb: Verb,
    name: u32,
    part: u32,
    rest: &Rest,
    spec: &Spec,
    page: &mut Page,
) -> Result<(), AllocError>
    ensures { Prints
        (Texts.line_of (verb_name verb ∷ Texts.name_at spec.now.resource_names name ∷
        decimal part ∷ rest_words spec.now rest.now))
        page.old result page.new }
{
    let name = Token::Text(name_at(&spec.resource_names, name));
    let part = Token::Number(part as u64);
    print_long_line(verb.name(), &[name, part], rest, spec, page)
}

/// Prints a list of a part.
fn print_list(
    name: u32,
    part: u32,
    list: &Apart<InstanceId>,
    spec: &Spec,
    page: &mut Page,
) -> Result<(), AllocError>
    ensures { Prints (LineTexts.line_text spec.now (asks.List name part list.now))
        page.old result page.new }
{
    let list = Rest::Instances(list.as_slice());
    print_with_part(Verb::List, name, part, &list, spec, page)
}

/// Prints a map of a part.
fn print_map(
    name: u32,
    part: u32,
    map: &Apart<(InstanceId, StateId)>,
    spec: &Spec,
    page: &mut Page,
) -> Result<(), AllocError>
    ensures { Prints (LineTexts.line_text spec.now (asks.Map name part map.now))
        page.old result page.new }
{
    let map = Rest::Pairs("=", map.as_slice());
    print_with_part(Verb::Map, name, part, &map, spec, page)
}

/// Prints a reset.
fn print_reset(
    instance: InstanceId,
    name: u32,
    part: u32,
    spec: &Spec,
    page: &mut Page,
) -> Result<(), AllocError>
    ensures { Prints (LineTexts.line_text spec.now (asks.Reset instance name part))
        page.old result page.new }
{
    let instance = Token::Text(instance_name(spec, instance));
    let name = Token::Text(name_at(&spec.resource_names, name));
    let part = Token::Number(part as u64);
    print_short_line(Verb::Reset.name(), &[instance, name, part], page)
}

/// Prints one of a turn's reads.
fn print_read(controller: ControllerId, kind: ReadKind, page: &mut Page) -> Result<(), AllocError>
    ensures { Prints
        (Texts.line_of (verb_name verbs.Read ∷ Texts.controller_name controller ∷
        LineTexts.read_kind_text kind ∷ []))
        page.old result page.new }
{
    let controller = Token::Controller(controller);
    let kind = Token::Text(read_kind_text(kind));
    print_short_line(Verb::Read.name(), &[controller, kind], page)
}

/// Prints the question who has a part in a state.
fn print_route(
    name: u32,
    part: u32,
    state: StateId,
    spec: &Spec,
    page: &mut Page,
) -> Result<(), AllocError>
    ensures { Prints (LineTexts.line_text spec.now (asks.Route name part state))
        page.old result page.new }
{
    let name = Token::Text(name_at(&spec.resource_names, name));
    let part = Token::Number(part as u64);
    let state = Token::Text(state_name(spec, state));
    print_short_line(Verb::Route.name(), &[name, part, state], page)
}

/// The verb of a line.
fn verb_asked(what: &What) -> Verb
    ensures { (spec : Spec) → LineTexts.what_words spec what.now
        ≡ verb_name result ∷ drop 1 (LineTexts.what_words spec what.now) }
{
    match what {
        What::Join(_) => Verb::Join,
        What::Beat(_) => Verb::Beat,
        What::Drain(_) => Verb::Drain,
        What::Undrain(_) => Verb::Undrain,
        What::Tick(_) => Verb::Tick,
        What::Expire(_) => Verb::Expire,
        What::Die(_) => Verb::Die,
        What::Add { .. } => Verb::Add,
        What::Drop(_) => Verb::Drop,
        What::List { .. } => Verb::List,
        What::Map { .. } => Verb::Map,
        What::Reset { .. } => Verb::Reset,
        What::Lead(_) => Verb::Lead,
        What::Stop(_) => Verb::Stop,
        What::Start(_) => Verb::Start,
        What::Begin(_) => Verb::Begin,
        What::Read(_, _) => Verb::Read,
        What::Send(_) => Verb::Send,
        What::Post(_) => Verb::Post,
        What::Pass(_) => Verb::Pass,
        What::Fetch(_) => Verb::Fetch,
        What::Deliver(_, _) => Verb::Deliver,
        What::Take(_, _) => Verb::Take,
        What::Write(_, _) => Verb::Write,
        What::Ack(_, _) => Verb::Ack,
        What::Work(_) => Verb::Work,
        What::Settle => Verb::Settle,
        What::View => Verb::View,
        What::Route { .. } => Verb::Route,
        What::Summary => Verb::Summary,
    }
}

/// Prints a script line, with one space between its words. A name that the description lacks is
/// empty.
pub fn print_line(line: &Line, spec: &Spec, page: &mut Page) -> Result<(), AllocError>
    ensures { Prints (LineTexts.line_text spec.now line.now.what) page.old result page.new }
{
    let verb = verb_asked(&line.what);
    match &line.what {
        What::Join(i)
        | What::Beat(i)
        | What::Drain(i)
        | What::Undrain(i)
        | What::Expire(i)
        | What::Die(i)
        | What::Fetch(i)
        | What::Work(i) => print_with_instance(verb, *i, spec, page),
        What::Lead(k)
        | What::Stop(k)
        | What::Start(k)
        | What::Begin(k)
        | What::Send(k)
        | What::Post(k)
        | What::Pass(k) => print_with_controller(verb, *k, page),
        What::Deliver(i, m) | What::Take(i, m) | What::Write(i, m) | What::Ack(i, m) => {
            print_with_message(verb, *i, *m, spec, page)
        }
        What::Settle | What::View | What::Summary => print_bare(verb, page),
        What::Tick(n) => print_tick(*n, page),
        What::Add {
            name,
            model,
            replicas,
            parts,
            mode,
        } => print_add(*name, *model, *replicas, *parts, *mode, spec, page),
        What::Drop(name) => print_drop(*name, spec, page),
        What::List { name, part, list } => print_list(*name, *part, list, spec, page),
        What::Map { name, part, map } => print_map(*name, *part, map, spec, page),
        What::Reset {
            instance,
            name,
            part,
        } => print_reset(*instance, *name, *part, spec, page),
        What::Read(k, kind) => print_read(*k, *kind, page),
        What::Route { name, part, state } => print_route(*name, *part, *state, spec, page),
    }
}

/// A law: a line that `parse` gives is read again, but for its number, from the text that
/// `print_line` writes for it, where the names of the description are spelt as names are.
pub fn printed_lines_are_read_again()
    ensures asked { (lines : List (List ℕ)) (spec after : Spec) (script : List Line) →
        script_of lines spec ≡ Ok (script, after) →
        AllByRecursion (λ line. LineTexts.IsAsked after line.what) script }
    ensures named { (lines : List (List ℕ)) (spec after : Spec) (script : List Line) →
        script_of lines spec ≡ Ok (script, after) →
        LineTexts.has_names spec ≡ true → LineTexts.has_names after ≡ true }
    ensures again { (spec : Spec) (what : What) →
        LineTexts.has_names spec ≡ true → LineTexts.IsAsked spec what →
        LineTexts.IsReadAs spec (LineTexts.line_text spec what) what }
{}
