//! The lines of the log. Each kind of line has a function of its own, since a function clears the
//! room of its words when it is called, where they are more than three.
ghost use Rattle.std.specs.Prelude.{◌≡◌, [], ◌∷◌, ◌++◌, map, codes, decimal};
ghost use Rattle.std.specs.List.{flat_map};
ghost use Rattle.hx_cluster.specs.Ends.{session_in};
ghost use Rattle.hx_text.specs.Texts.{Prints};
ghost use Rattle.hx_print.specs.Tokens;
ghost use Rattle.hx_print.specs.Texts;

use crate::lines::{Rest, Token, print_end, print_line, print_long_line, print_start};
use crate::names::{
    instance_name, mode_name, model_name, name_at, name_of_resource, outcome_name, session_or_dash,
    state_name, state_or_dash,
};
use crate::roll::{Roll, instance_in, session_in};
use hx_cluster::{Admin, Did, Dispatched, Event, Outcome, Placed, Proposal, Spec};
use hx_ideal::Ideal;
use hx_ids::{
    ControllerId, Epoch, InstanceId, ModelId, MsgId, PartId, PassNo, ResourceId, SessionId, StateId,
};
use hx_lists::Seq;
use hx_text::Page;
use std::alloc::AllocError;

/// The session that a join opened.
pub(crate) fn joined_by(did: &Did) -> Option<SessionId>
    ensures { result ≡ Texts.joined_by did.now }
{
    match did {
        Did::Joined(session) => Some(*session),
        Did::Ended(_) | Did::Added(_) | Did::Leads(_) | Did::Done => None,
    }
}

/// The sessions that a tick ended.
pub(crate) fn ended_by_tick(did: &Did) -> &[SessionId]
    ensures { result.now ≡ Texts.ended_by_tick did.now }
{
    match did {
        Did::Ended(sessions) => sessions.as_slice(),
        Did::Joined(_) | Did::Added(_) | Did::Leads(_) | Did::Done => &[],
    }
}

/// The number of an added resource.
fn added_as(did: &Did) -> Option<ResourceId>
    ensures { result ≡ Texts.added_as did.now }
{
    match did {
        Did::Added(resource) => Some(*resource),
        Did::Joined(_) | Did::Ended(_) | Did::Leads(_) | Did::Done => None,
    }
}

/// The epoch of a leader.
fn leads_in(did: &Did) -> Option<Epoch>
    ensures { result ≡ Texts.leads_in did.now }
{
    match did {
        Did::Leads(epoch) => Some(*epoch),
        Did::Joined(_) | Did::Ended(_) | Did::Added(_) | Did::Done => None,
    }
}

/// Prints a join, an end or a beat.
fn print_session(
    word: &str,
    instance: InstanceId,
    session: Option<SessionId>,
    spec: &Spec,
    page: &mut Page,
) -> Result<(), AllocError>
    ensures { Prints (Texts.session_line word.now spec.now instance session)
        page.old result page.new }
{
    match session {
        Some(s) => {
            let instance = Token::Text(instance_name(spec, instance));
            print_line(word, &[instance, Token::Session(s)], page)
        }
        None => Ok(()),
    }
}

/// Prints an end or a beat of the session that an instance has in the roll.
fn print_live_session(
    word: &str,
    instance: InstanceId,
    roll: &Roll,
    spec: &Spec,
    page: &mut Page,
) -> Result<(), AllocError>
    ensures { Prints
        (Texts.session_line word.now spec.now instance (session_in roll.now.live instance))
        page.old result page.new }
{
    let session = session_in(roll.live.as_slice(), instance);
    print_session(word, instance, session, spec, page)
}

/// Prints a session that a tick ended, with the instance that it had.
fn print_ended(
    session: SessionId,
    live: &[(SessionId, InstanceId)],
    spec: &Spec,
    page: &mut Page,
) -> Result<(), AllocError>
    ensures { Prints (Texts.ended_line spec.now live.now session) page.old result page.new }
{
    let instance = match instance_in(live, session) {
        Some(i) => instance_name(spec, i),
        None => "",
    };
    print_line(
        "  end",
        &[Token::Text(instance), Token::Session(session)],
        page,
    )
}

/// Prints the sessions that a tick ended.
fn print_all_ended(
    ended: &[SessionId],
    live: &[(SessionId, InstanceId)],
    spec: &Spec,
    page: &mut Page,
) -> Result<(), AllocError>
    ensures { Prints (flat_map (Texts.ended_line spec.now live.now) ended.now)
        page.old result page.new }
{
    for session in ended {
        print_ended(*session, live, spec, page)?;
    }
    Ok(())
}

/// Prints a tick with the sessions that it ended.
fn print_tick(
    n: u64,
    ended: &[SessionId],
    roll: &Roll,
    spec: &Spec,
    page: &mut Page,
) -> Result<(), AllocError>
    ensures { Prints (Texts.tick_text spec.now roll.now.live n ended.now) page.old result page.new }
{
    print_line("tick", &[Token::Number(n)], page)?;
    print_all_ended(ended, roll.live.as_slice(), spec, page)
}

/// Prints an added resource.
fn print_add(
    name: u32,
    model: ModelId,
    ideal: &Ideal,
    resource: Option<ResourceId>,
    spec: &Spec,
    page: &mut Page,
) -> Result<(), AllocError>
    ensures { Prints
        (Texts.add_text spec.now name model
        ideal.now.replicas ideal.now.parts ideal.now.mode resource)
        page.old result page.new }
{
    let Some(r) = resource else { return Ok(()) };
    let name = Token::Resource(name_at(&spec.resource_names, name), r);
    let model = Token::Text(model_name(spec, model));
    let replicas = Token::Number(ideal.replicas() as u64);
    let parts = Token::Number(ideal.parts() as u64);
    let mode = Token::Text(mode_name(ideal.mode()));
    print_line("add", &[name, model, replicas, parts, mode], page)
}

/// The word of a part. The roll has the names of the resources.
fn part_word<'a>(part: PartId, roll: &Roll, spec: &'a Spec) -> Token<'a>
    ensures { Tokens.token_word result ≡ Texts.part_in spec.now roll.now.resources part }
{
    let name = name_of_resource(spec, roll.resources.as_slice(), part.resource);
    Token::Part(name, part)
}

/// Prints a reset.
fn print_reset(
    instance: InstanceId,
    part: PartId,
    roll: &Roll,
    spec: &Spec,
    page: &mut Page,
) -> Result<(), AllocError>
    ensures { Prints
        (Texts.reset_text spec.now roll.now.resources instance part
        (session_in roll.now.live instance))
        page.old result page.new }
{
    match session_in(roll.live.as_slice(), instance) {
        Some(s) => {
            let instance = Token::Text(instance_name(spec, instance));
            let part = part_word(part, roll, spec);
            print_line("reset", &[instance, Token::Session(s), part], page)
        }
        None => Ok(()),
    }
}

/// Prints a new leader.
fn print_lead(
    controller: ControllerId,
    epoch: Option<Epoch>,
    page: &mut Page,
) -> Result<(), AllocError>
    ensures { Prints (Texts.lead_text controller epoch) page.old result page.new }
{
    match epoch {
        Some(e) => print_line(
            "lead",
            &[Token::Controller(controller), Token::Epoch(e)],
            page,
        ),
        None => Ok(()),
    }
}

/// Prints a step on an instance.
fn print_instance(
    word: &str,
    instance: InstanceId,
    spec: &Spec,
    page: &mut Page,
) -> Result<(), AllocError>
    ensures { Prints (Texts.line_of (word.now ∷ Texts.instance_name spec.now instance ∷ []))
        page.old result page.new }
{
    print_line(word, &[Token::Text(instance_name(spec, instance))], page)
}

/// Prints a step on a controller.
fn print_controller(word: &str, controller: ControllerId, page: &mut Page) -> Result<(), AllocError>
    ensures { Prints (Texts.line_of (word.now ∷ Texts.controller_name controller ∷ []))
        page.old result page.new }
{
    print_line(word, &[Token::Controller(controller)], page)
}

/// Prints that a resource was dropped.
fn print_drop(
    resource: ResourceId,
    roll: &Roll,
    spec: &Spec,
    page: &mut Page,
) -> Result<(), AllocError>
    ensures { Prints
        (Texts.line_of (codes "drop"
        ∷ Texts.numbered (Texts.name_of_resource spec.now roll.now.resources resource) resource
        ∷ []))
        page.old result page.new }
{
    let name = name_of_resource(spec, roll.resources.as_slice(), resource);
    print_line("drop", &[Token::Resource(name, resource)], page)
}

/// Prints a new list or map of a part.
fn print_edit(
    word: &str,
    part: PartId,
    rest: &Rest,
    roll: &Roll,
    spec: &Spec,
    page: &mut Page,
) -> Result<(), AllocError>
    ensures { Prints
        (Texts.line_of (word.now ∷ Texts.part_in spec.now roll.now.resources part
        ∷ Tokens.rest_words spec.now rest.now))
        page.old result page.new }
{
    print_long_line(word, &[part_word(part, roll, spec)], rest, spec, page)
}

/// Prints a new list of a part.
fn print_list(
    part: PartId,
    list: &[InstanceId],
    roll: &Roll,
    spec: &Spec,
    page: &mut Page,
) -> Result<(), AllocError>
    ensures { Prints
        (Texts.line_of (codes "list" ∷ Texts.part_in spec.now roll.now.resources part
        ∷ map (Texts.instance_name spec.now) list.now))
        page.old result page.new }
{
    print_edit("list", part, &Rest::Instances(list), roll, spec, page)
}

/// Prints a new map of a part.
fn print_map(
    part: PartId,
    entries: &[(InstanceId, StateId)],
    roll: &Roll,
    spec: &Spec,
    page: &mut Page,
) -> Result<(), AllocError>
    ensures { Prints
        (Texts.line_of (codes "map" ∷ Texts.part_in spec.now roll.now.resources part
        ∷ map (Texts.mapped_name spec.now) entries.now))
        page.old result page.new }
{
    print_edit("map", part, &Rest::Pairs("=", entries), roll, spec, page)
}

/// Prints a step with what it did. The roll is the one before it.
pub fn print_step(
    step: &Admin,
    did: &Did,
    roll: &Roll,
    spec: &Spec,
    page: &mut Page,
) -> Result<(), AllocError>
    ensures { Prints (Texts.step_text spec.now roll.now step.now did.now) page.old result page.new }
{
    match step {
        Admin::Join { instance } => print_session("join", *instance, joined_by(did), spec, page),
        Admin::End { instance } => print_live_session("end", *instance, roll, spec, page),
        Admin::Beat { instance } => print_live_session("beat", *instance, roll, spec, page),
        Admin::Tick { n } => print_tick(*n, ended_by_tick(did), roll, spec, page),
        Admin::Drain { instance } => print_instance("drain", *instance, spec, page),
        Admin::Undrain { instance } => print_instance("undrain", *instance, spec, page),
        Admin::Add { name, model, ideal } => {
            print_add(*name, *model, ideal, added_as(did), spec, page)
        }
        Admin::Drop { resource } => print_drop(*resource, roll, spec, page),
        Admin::SetList { part, list } => print_list(*part, list.as_slice(), roll, spec, page),
        Admin::SetMap { part, map } => print_map(*part, map.as_slice(), roll, spec, page),
        Admin::Reset { instance, part } => print_reset(*instance, *part, roll, spec, page),
        Admin::Lead { controller } => print_lead(*controller, leads_in(did), page),
        Admin::Stop { controller } => print_controller("stop", *controller, page),
        Admin::Start { controller } => print_controller("start", *controller, page),
    }
}

/// Prints that a bound is reached, at the start of a line.
fn print_over_bound(count: u32, bound: u32, page: &mut Page) -> Result<(), AllocError>
    ensures { Prints
        (Texts.start_of (codes "  bound" ∷ decimal count ∷ codes "of" ∷ decimal bound ∷ []))
        page.old result page.new }
{
    let [count, bound] = [Token::Number(count as u64), Token::Number(bound as u64)];
    print_start("  bound", &[count, Token::Text("of"), bound], page)
}

/// Prints that a throttle is reached, at the start of a line.
fn print_over_throttle(rule: u32, load: u32, limit: u32, page: &mut Page) -> Result<(), AllocError>
    ensures { Prints
        (Texts.start_of (codes "  throttle" ∷ decimal rule ∷ decimal load
        ∷ codes "of" ∷ decimal limit ∷ []))
        page.old result page.new }
{
    let rule = Token::Number(rule as u64);
    let [load, limit] = [Token::Number(load as u64), Token::Number(limit as u64)];
    print_start("  throttle", &[rule, load, Token::Text("of"), limit], page)
}

/// Prints the answer to a proposal, at the start of a line.
#[inline(always)]
fn print_answer(answer: Placed, spec: &Spec, page: &mut Page) -> Result<(), AllocError>
    ensures { Prints (Texts.start_of (Texts.placed_words spec.now answer))
        page.old result page.new }
{
    match answer {
        Placed::Sent(m) => print_start("  sent", &[Token::Message(m)], page),
        Placed::Ended => print_start("  ended", &[], page),
        Placed::ResourceDropped => print_start("  dropped", &[], page),
        Placed::Busy { id } => print_start("  busy", &[Token::Message(id)], page),
        Placed::WrongFrom { has } => {
            print_start("  from", &[Token::Text(state_or_dash(spec, has))], page)
        }
        Placed::Illegal => print_start("  illegal", &[], page),
        Placed::OverBound { count, bound } => print_over_bound(count, bound, page),
        Placed::OverThrottle { rule, load, limit } => print_over_throttle(rule, load, limit, page),
    }
}

/// Prints the words of a proposal, at the end of a line. The names are those of the resources by
/// number.
#[inline(always)]
fn print_proposal(
    proposal: &Proposal,
    names: &[u32],
    spec: &Spec,
    page: &mut Page,
) -> Result<(), AllocError>
    ensures { Prints (Texts.spaced (Texts.proposal_words spec.now names.now proposal.now) ++ codes "\n")
        page.old result page.new }
{
    let session = Token::Session(proposal.session);
    let name = name_of_resource(spec, names, proposal.part.resource);
    let part = Token::Part(name, proposal.part);
    let from = state_name(spec, proposal.from);
    let to = state_name(spec, proposal.to);
    print_end(&[session, part, Token::Pair(from, ">", to)], page)
}

/// Prints what became of a proposal. The names are those of the resources by number.
fn print_placed(
    proposal: &Proposal,
    answer: Placed,
    names: &[u32],
    spec: &Spec,
    page: &mut Page,
) -> Result<(), AllocError>
    ensures { Prints (Texts.placed_line spec.now names.now proposal.now answer)
        page.old result page.new }
{
    print_answer(answer, spec, page)?;
    print_proposal(proposal, names, spec, page)
}

/// Prints what became of all proposals of a dispatch.
fn print_all_placed(
    proposals: &[Proposal],
    placed: &[Placed],
    names: &[u32],
    spec: &Spec,
    page: &mut Page,
) -> Result<(), AllocError>
    ensures { Prints (Texts.placed_lines spec.now names.now proposals.now placed.now)
        page.old result page.new }
{
    for (i, proposal) in proposals.iter().enumerate() {
        let Some(answer) = placed.get(i) else {
            return Ok(());
        };
        print_placed(proposal, *answer, names, spec, page)?;
    }
    Ok(())
}

/// Prints what a dispatch answered. The roll is the one before it.
fn print_answered(
    proposals: &Seq<Proposal>,
    answer: &Dispatched,
    roll: &Roll,
    spec: &Spec,
    page: &mut Page,
) -> Result<(), AllocError>
    ensures { Prints
        (Texts.placed_lines spec.now roll.now.resources proposals.now answer.now.placed)
        page.old result page.new }
{
    let names = roll.resources.as_slice();
    print_all_placed(
        proposals.as_slice(),
        answer.placed.as_slice(),
        names,
        spec,
        page,
    )
}

/// Prints that a line of the script begins.
#[inline(always)]
fn print_number_of_line(n: u32, page: &mut Page) -> Result<(), AllocError>
    ensures { Prints (Texts.line_of (codes "line" ∷ decimal n ∷ [])) page.old result page.new }
{
    print_line("line", &[Token::Number(n as u64)], page)
}

/// Prints a step of a turn in an epoch.
fn print_turn(
    word: &str,
    controller: ControllerId,
    epoch: Epoch,
    pass: PassNo,
    page: &mut Page,
) -> Result<(), AllocError>
    ensures { Prints
        (Texts.line_of (word.now ∷ Texts.controller_name controller
        ∷ Texts.epoch_name epoch ∷ Texts.pass_name pass ∷ []))
        page.old result page.new }
{
    let turn = [
        Token::Controller(controller),
        Token::Epoch(epoch),
        Token::Pass(pass),
    ];
    print_line(word, &turn, page)
}

/// Prints that a turn read what is there once.
fn print_read(
    word: &str,
    controller: ControllerId,
    pass: PassNo,
    page: &mut Page,
) -> Result<(), AllocError>
    ensures { Prints
        (Texts.line_of (word.now ∷ Texts.controller_name controller ∷ Texts.pass_name pass ∷ []))
        page.old result page.new }
{
    let turn = [Token::Controller(controller), Token::Pass(pass)];
    print_line(word, &turn, page)
}

/// Prints that a turn read what is there for each session.
#[inline(always)]
fn print_read_of(
    word: &str,
    controller: ControllerId,
    pass: PassNo,
    session: SessionId,
    page: &mut Page,
) -> Result<(), AllocError>
    ensures { Prints
        (Texts.line_of (word.now ∷ Texts.controller_name controller
        ∷ Texts.pass_name pass ∷ Texts.session_name session ∷ []))
        page.old result page.new }
{
    let turn = [
        Token::Controller(controller),
        Token::Pass(pass),
        Token::Session(session),
    ];
    print_line(word, &turn, page)
}

/// Prints a post of so many rows.
fn print_post(
    controller: ControllerId,
    epoch: Epoch,
    count: usize,
    page: &mut Page,
) -> Result<(), AllocError>
    ensures { Prints
        (Texts.line_of (codes "post" ∷ Texts.controller_name controller
        ∷ Texts.epoch_name epoch ∷ decimal count ∷ []))
        page.old result page.new }
{
    let count = Token::Number(count as u64);
    print_line(
        "post",
        &[Token::Controller(controller), Token::Epoch(epoch), count],
        page,
    )
}

/// Prints a fetch of so many messages.
fn print_fetch(
    instance: InstanceId,
    session: Option<SessionId>,
    count: u32,
    spec: &Spec,
    page: &mut Page,
) -> Result<(), AllocError>
    ensures { Prints
        (Texts.line_of (codes "fetch" ∷ Texts.instance_name spec.now instance
        ∷ Texts.or_dash Texts.session_name session ∷ decimal count ∷ []))
        page.old result page.new }
{
    let instance = Token::Text(instance_name(spec, instance));
    let count = Token::Number(count as u64);
    print_line("fetch", &[instance, session_or_dash(session), count], page)
}

/// Prints a step on a message.
#[inline(always)]
fn print_message(
    word: &str,
    session: SessionId,
    id: MsgId,
    page: &mut Page,
) -> Result<(), AllocError>
    ensures { Prints
        (Texts.line_of (word.now ∷ Texts.session_name session ∷ Texts.message_name id ∷ []))
        page.old result page.new }
{
    print_line(word, &[Token::Session(session), Token::Message(id)], page)
}

/// Prints the outcome of a run.
fn print_write(
    session: SessionId,
    id: MsgId,
    outcome: Outcome,
    page: &mut Page,
) -> Result<(), AllocError>
    ensures { Prints
        (Texts.line_of (codes "write" ∷ Texts.session_name session ∷ Texts.message_name id
        ∷ Texts.outcome_name outcome ∷ []))
        page.old result page.new }
{
    let outcome = Token::Text(outcome_name(outcome));
    print_line(
        "write",
        &[Token::Session(session), Token::Message(id), outcome],
        page,
    )
}

/// Prints an event. The roll is the one before it.
#[inline(always)]
pub fn print_event(
    event: &Event,
    roll: &Roll,
    spec: &Spec,
    page: &mut Page,
) -> Result<(), AllocError>
    ensures { Prints (Texts.event_text spec.now roll.now event.now) page.old result page.new }
{
    match event {
        Event::Admin(step, did) => print_step(step, did, roll, spec, page),
        Event::Line(n) => print_number_of_line(*n, page),
        Event::Begin(c, begun) => print_turn("begin", *c, begun.epoch, begun.pass, page),
        Event::Live(c, pass) => print_read("live", *c, *pass, page),
        Event::Mail(c, pass, s) => print_read_of("mail", *c, *pass, *s, page),
        Event::States(c, pass, s) => print_read_of("states", *c, *pass, *s, page),
        Event::Ideals(c, pass) => print_read("ideals", *c, *pass, page),
        Event::Dispatch {
            c,
            epoch,
            pass,
            proposals,
            answer,
        } => {
            print_turn("send", *c, *epoch, *pass, page)?;
            print_answered(proposals, answer, roll, spec, page)
        }
        Event::Post { c, epoch, rows } => print_post(*c, *epoch, rows.len(), page),
        Event::Fetch {
            instance,
            session,
            count,
        } => print_fetch(*instance, *session, *count, spec, page),
        Event::Take(s, m) => print_message("take", *s, *m, page),
        Event::Write(s, m, outcome) => print_write(*s, *m, *outcome, page),
        Event::Ack(s, m) => print_message("ack", *s, *m, page),
    }
}
