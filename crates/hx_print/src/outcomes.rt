//! Outcomes, views and the other lines that are neither log lines nor notes.
ghost use Rattle.std.specs.Prelude.{[], ◌∷◌, codes, decimal};
ghost use Rattle.hx_text.specs.Texts.{Prints};
ghost use Rattle.hx_print.specs.Texts;

use crate::lines::{Rest, Token, print_line, print_long_line};
use crate::names::{instance_name, state_name};
use hx_cluster::{Full, Spec};
use hx_ids::{ControllerId, InstanceId, MsgId, PartId, SessionId, StateId};
use hx_text::Page;
use std::alloc::AllocError;

/// Prints what a controller's turn told, and how many.
fn print_count(
    controller: ControllerId,
    told: &str,
    n: u32,
    page: &mut Page,
) -> Result<(), AllocError>
    ensures { Prints
        (Texts.line_of (codes "?" ∷ Texts.controller_name controller ∷ told.now ∷ decimal n ∷ []))
        page.old result page.new }
{
    let n = Token::Number(n as u64);
    print_line(
        "?",
        &[Token::Controller(controller), Token::Text(told), n],
        page,
    )
}

/// Prints that a dispatch sent so many messages.
pub fn print_sent(controller: ControllerId, n: u32, page: &mut Page) -> Result<(), AllocError>
    ensures { Prints (Texts.sent_text controller n) page.old result page.new }
{
    print_count(controller, "sent", n, page)
}

/// Prints that a pass waits for so many pending messages.
pub fn print_waiting(controller: ControllerId, n: u32, page: &mut Page) -> Result<(), AllocError>
    ensures { Prints (Texts.waiting_text controller n) page.old result page.new }
{
    print_count(controller, "waiting", n, page)
}

/// Prints that the cluster changed under a pass, with the change numbers before and after.
pub fn print_moved(
    controller: ControllerId,
    from: u64,
    to: u64,
    page: &mut Page,
) -> Result<(), AllocError>
    ensures { Prints (Texts.moved_text controller from to) page.old result page.new }
{
    let [from, to] = [Token::Number(from), Token::Number(to)];
    print_line(
        "?",
        &[
            Token::Controller(controller),
            Token::Text("moved"),
            from,
            to,
        ],
        page,
    )
}

/// Prints that a pass found nothing to do.
pub fn print_settled(controller: ControllerId, page: &mut Page) -> Result<(), AllocError>
    ensures { Prints (Texts.settled_text controller) page.old result page.new }
{
    print_line(
        "?",
        &[Token::Controller(controller), Token::Text("settled")],
        page,
    )
}

/// Prints that a leader settled the cluster in so many passes.
pub fn print_settle(controller: ControllerId, n: u64, page: &mut Page) -> Result<(), AllocError>
    ensures { Prints (Texts.settle_text controller n) page.old result page.new }
{
    let leader = Token::Controller(controller);
    print_line(
        "?",
        &[Token::Text("settle"), leader, Token::Number(n)],
        page,
    )
}

/// Prints that a participant accepted a message.
pub fn print_accept(
    instance: InstanceId,
    id: MsgId,
    spec: &Spec,
    page: &mut Page,
) -> Result<(), AllocError>
    ensures { Prints (Texts.accept_text spec.now instance id) page.old result page.new }
{
    let instance = Token::Text(instance_name(spec, instance));
    print_line(
        "?",
        &[instance, Token::Text("accept"), Token::Message(id)],
        page,
    )
}

/// Prints that a replica is in ERROR. The name is that of the part's resource.
pub fn print_failed<'a>(
    instance: InstanceId,
    name: &'a str,
    part: PartId,
    spec: &'a Spec,
    page: &mut Page,
) -> Result<(), AllocError>
    ensures { Prints (Texts.failed_line spec.now name.now instance part) page.old result page.new }
{
    let instance = Token::Text(instance_name(spec, instance));
    print_line(
        "?",
        &[Token::Text("failed"), instance, Token::Part(name, part)],
        page,
    )
}

/// Prints that a replica can't reach a state since others have it. The name is that of the part's
/// resource.
pub fn print_full<'a>(
    full: &'a Full,
    name: &'a str,
    shown: &'a [(SessionId, InstanceId)],
    spec: &'a Spec,
    page: &mut Page,
) -> Result<(), AllocError>
    ensures { Prints (Texts.full_line spec.now name.now shown.now full.now)
        page.old result page.new }
{
    let candidate = &full.candidate;
    let instance = Token::Text(instance_name(spec, candidate.instance));
    let part = Token::Part(name, candidate.part);
    let from = state_name(spec, candidate.from);
    let to = state_name(spec, candidate.to);
    let change = Token::Pair(from, ">", to);
    let [count, bound] = [
        Token::Number(full.count as u64),
        Token::Number(full.bound as u64),
    ];
    let words = [
        Token::Text("full"),
        instance,
        part,
        change,
        count,
        Token::Text("of"),
        bound,
    ];
    let holders = Rest::Holders(shown, full.holders.as_slice());
    print_long_line("?", &words, &holders, spec, page)
}

/// Prints the view of a part: who has it in which state. The name is that of its resource.
pub fn print_seen(
    name: &str,
    part: PartId,
    holders: &[(InstanceId, StateId)],
    spec: &Spec,
    page: &mut Page,
) -> Result<(), AllocError>
    ensures { Prints (Texts.seen_line spec.now name.now part holders.now) page.old result page.new }
{
    match holders {
        [] => print_line("=", &[Token::Part(name, part), Token::Text("-")], page),
        [..] => {
            let holders = Rest::Pairs(":", holders);
            print_long_line("=", &[Token::Part(name, part)], &holders, spec, page)
        }
    }
}

/// Prints the instances that have a part in a state. The name is that of its resource.
pub fn print_route<'a>(
    name: &'a str,
    part: PartId,
    state: StateId,
    instances: &[InstanceId],
    spec: &'a Spec,
    page: &mut Page,
) -> Result<(), AllocError>
    ensures { Prints (Texts.route_line spec.now name.now part state instances.now)
        page.old result page.new }
{
    let state = Token::Text(state_name(spec, state));
    let part = Token::Part(name, part);
    match instances {
        [] => print_line(
            "=",
            &[Token::Text("route"), part, state, Token::Text("-")],
            page,
        ),
        [..] => {
            let instances = Rest::Instances(instances);
            print_long_line(
                "=",
                &[Token::Text("route"), part, state],
                &instances,
                spec,
                page,
            )
        }
    }
}

/// Prints how many messages were sent, were written ok or failed, and how many sessions began and
/// ended.
pub fn print_summary(
    sent: u64,
    ok: u64,
    failed: u64,
    joined: u64,
    ended: u64,
    page: &mut Page,
) -> Result<(), AllocError>
    ensures { Prints (Texts.summary_text sent ok failed joined ended) page.old result page.new }
{
    let words = [
        Token::Text("summary"),
        Token::Text("sent"),
        Token::Number(sent),
        Token::Text("ok"),
        Token::Number(ok),
        Token::Text("failed"),
        Token::Number(failed),
        Token::Text("sessions"),
        Token::Number(joined),
        Token::Text("ended"),
        Token::Number(ended),
    ];
    print_line("=", &words, page)
}

/// Prints that the history has no room for more than this weight.
pub fn print_history_full(weight: u64, page: &mut Page) -> Result<(), AllocError>
    ensures { Prints (Texts.history_full_text weight) page.old result page.new }
{
    print_line(
        "history",
        &[Token::Text("full"), Token::Number(weight)],
        page,
    )
}
