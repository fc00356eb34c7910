ghost use Rattle.std.specs.Prelude.{◌<◌, length};

use super::{expect_page, small_spec};
use hx_cluster::{Admin, Did, Event, Spec};
use hx_history::{Entries, History};
use hx_ids::{InstanceId, SessionId};
use hx_script::{Printer, print_history};
use hx_text::Page;
use std::alloc::{AllocError, Global};
use std::test::Fail;

const N1: InstanceId = InstanceId(0);

/// The history of a session that joined, and behind it its end.
fn joined_and_ended(alloc: Global, spec: &Spec) -> Result<Page, AllocError>
    requires { 0 < length spec.now.instances }
{
    let mut history = History {
        entries: Entries::new(alloc),
    };
    let join = Admin::Join { instance: N1 };
    history
        .entries
        .push(Event::Admin(join, Did::Joined(SessionId(1))))?;
    let mut page = Page::new(alloc);
    print_history(alloc, &history, spec, &mut page)?;
    let mut printer = Printer::new(alloc, spec, &history)?;
    let end = Event::Admin(Admin::End { instance: N1 }, Did::Done);
    printer.entry(&end, spec, &mut page)?;
    Ok(page)
}

#[test]
fn an_entry_is_printed_behind_a_history(rt: HostRuntime) -> Result<(), Fail> {
    let spec = small_spec(rt.alloc())?;
    if spec.instances.len() == 0 {
        return Err("no instance".into());
    }
    let page = joined_and_ended(rt.alloc(), &spec)?;
    expect_page(&rt, &page, "join n1 s1\nend n1 s1\n");
    Ok(())
}
