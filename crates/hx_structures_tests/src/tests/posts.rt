//! The rows of a post are counted.
use crate::tests::fixtures::{FIRST, SECOND, expect, part, seen};
use hx_cluster::{PostedRows, Seen};
use hx_lists::Seq;
use std::test::Fail;

#[test]
fn rows_of_a_post_are_counted(rt: HostRuntime) -> Result<(), Fail> {
    let cases: [&[Seen]; 2] = [&[], &[seen(part(FIRST, 0)), seen(part(SECOND, 2))]];
    for rows in cases {
        let posted = PostedRows::of(&Seq::from_slice(rt.alloc(), rows)?);
        expect(&rt, &posted.len(), &rows.len());
        expect(&rt, &posted.is_empty(), &rows.is_empty());
    }
    Ok(())
}
