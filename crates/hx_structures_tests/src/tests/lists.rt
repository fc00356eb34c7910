use crate::tests::fixtures::expect;
use hx_lists::{Log, Seq};
use std::alloc::AllocError;
use std::test::Fail;

/// Puts some numbers in order, and changes the last.
fn put_some(list: &mut Seq<u32>) -> Result<(), AllocError> {
    for value in [3, 1, 2] {
        list.insert_by(value, |other| *other < value)?;
    }
    if let Some(last) = list.get_mut(2) {
        *last = 4;
    }
    list.extend_from_slice(&[5])
}

#[test]
fn a_list_is_kept_in_order_and_copied(rt: HostRuntime) -> Result<(), Fail> {
    let mut list = Seq::new(rt.alloc());
    put_some(&mut list)?;
    let copy = list.clone()?;
    assert!(rt; copy == list);
    expect(&rt, &copy.as_slice(), &[1, 2, 4, 5].as_slice());
    Ok(())
}

#[test]
fn a_log_takes_what_there_is_room_for(rt: HostRuntime) -> Result<(), Fail> {
    let mut log = Log::new(rt.alloc());
    log.reserve(1)?;
    assert!(rt; log.spare() >= 1);
    log.push_reserved(7u32);
    log.push(8)?;
    expect(&rt, &log.as_slice(), &[7, 8].as_slice());
    Ok(())
}
