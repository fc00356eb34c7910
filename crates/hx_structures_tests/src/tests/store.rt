use crate::tests::fixtures::expect;
use hx_ids::SessionId;
use hx_store::{Op, Store, StoreFault};
use std::alloc::Global;
use std::process::Abort;
use std::test::Fail;

const HERE: SessionId = SessionId(1);

const THERE: SessionId = SessionId(2);

/// A store of a record that was made and changed.
fn changed(alloc: Global) -> Result<Store<u32>, StoreFault> {
    let mut store = Store::new(alloc);
    store.create(5, None, 10)?;
    store.set(5, 1, 20)?;
    Ok(store)
}

#[test]
fn a_record_is_made_changed_and_removed(rt: HostRuntime) -> Result<(), Fail> {
    let mut store = changed(rt.alloc())?;
    assert!(rt; store.get(5).is_some());
    expect(&rt, &store.range(0, 9)?.len(), &1);
    expect(&rt, &store.delete(5, 2), &Ok(20));
    Ok(())
}

#[test]
fn a_record_is_replaced_and_removed_whatever_its_version(rt: HostRuntime) -> Result<(), Fail> {
    let mut store = Store::new(rt.alloc());
    store.create(5, Some(HERE), 10u32)?;
    expect(&rt, &store.replace(5, 20), &Some(10));
    expect(&rt, &store.remove(5), &Some(20));
    expect(&rt, &store.remove(5), &None);
    expect(&rt, &store.next_owned(HERE, 0), &None);
    Ok(())
}

#[test]
fn operations_are_done_together(rt: HostRuntime) -> Result<(), Fail> {
    let mut store = Store::new(rt.alloc());
    let owner = Some(HERE);
    let ops = Vec::from_array(
        rt.alloc(),
        [
            Op::Create {
                key: 4,
                owner,
                value: 1u32,
            },
            Op::Set {
                key: 4,
                version: 1,
                value: 2,
            },
            Op::Create {
                key: 9,
                owner,
                value: 3,
            },
            Op::Delete { key: 4, version: 2 },
        ],
    )?;
    store.multi(ops)?;
    expect(&rt, &store.end_session(HERE), &1);
    Ok(())
}

/// A store of four records, of which one session owns two and another one.
fn owned(alloc: Global) -> Result<Store<u32>, StoreFault> {
    let mut store = Store::new(alloc);
    for (key, owner, value) in [
        (8, Some(HERE), 10),
        (6, Some(THERE), 20),
        (7, None, 30),
        (3, Some(HERE), 40),
    ] {
        store.create(key, owner, value)?;
    }
    Ok(store)
}

fn expect_keys(rt: &impl Abort, store: &Store<u32>) {
    expect(rt, &store.next_owned(HERE, 0), &Some(3));
    expect(rt, &store.next_owned(HERE, 4), &Some(8));
    expect(rt, &store.next_owned(HERE, 9), &None);
}

fn expect_values(rt: &impl Abort, store: &Store<u32>) {
    let mut values = store.owned(HERE);
    expect(rt, &values.next(), &Some(&40));
    expect(rt, &values.next(), &Some(&10));
    expect(rt, &values.next(), &None);
    expect(rt, &store.owned(SessionId(3)).next(), &None);
}

#[test]
fn a_session_finds_its_records_in_order(rt: HostRuntime) -> Result<(), Fail> {
    let mut store = owned(rt.alloc())?;
    expect_keys(&rt, &store);
    expect_values(&rt, &store);
    expect(&rt, &store.end_session(HERE), &2);
    expect(&rt, &store.next_owned(HERE, 0), &None);
    expect(&rt, &store.len(), &2);
    Ok(())
}
