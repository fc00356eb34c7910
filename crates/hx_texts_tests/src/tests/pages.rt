use super::{expect, expect_page};
use hx_text::{Page, Piece};
use std::alloc::AllocError;
use std::test::Fail;

fn print_place(page: &mut Page) -> Result<(), AllocError> {
    page.push_str("line ")?;
    page.push_u64(u64::MAX)?;
    page.push(&Piece::Text(":"))
}

/// Puts two lines at the end of a page.
fn print_lines(page: &mut Page) -> Result<(), AllocError> {
    print_place(page)?;
    page.push_all(&[Piece::Text(" join s"), Piece::Number(0), Piece::Text("\n")])?;
    page.push_numbered(b'#', 1203)?;
    page.push_byte(b'\n')
}

#[test]
fn pages_grow_at_their_end(rt: HostRuntime) -> Result<(), Fail> {
    let mut page = Page::new(rt.alloc());
    assert!(rt; page.is_empty());
    print_lines(&mut page)?;
    expect_page(&rt, &page, "line 18446744073709551615: join s0\n#1203\n");
    expect(&rt, &page.len(), &41);
    page.cut_to(5);
    expect_page(&rt, &page, "line ");
    Ok(())
}
