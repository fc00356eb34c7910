use super::*;
use std::test::Fail;

#[test]
fn the_input_of_seed_7_is_as_worked(rt: HostRuntime) -> Result<(), Fail> {
    let page = make(rt.alloc(), 7, 64)?;
    let mut rest = page.as_bytes();
    for front in [
        "{\"version\":1,\"controllers\":2,\"timeout\":30,\"instances\":[\"i00\",\"i01\",\"i02\",",
        "\"i03\",\"i04\",\"i05\",\"i06\",\"i07\",\"i08\",\"i09\",\"i10\",\"i11\"],\"throttles\":",
        "[{\"scope\":\"instance\",\"limit\":4}],\"resources\":[{\"name\":\"db\",\"model\":",
        "\"MasterSlave\",\"replicas\":3,\"partitions\":64,\"mode\":\"SEMI_AUTO\",\"lists\":",
        "[[\"i02\",\"i03\",\"i04\",\"i05\"],[\"",
    ] {
        rest = rest.strip_prefix(front.as_bytes()).ok_or("another front")?;
    }
    let end = b"]]}]}\n---\njoin i00\njoin i01\n".as_slice();
    assert!(rt; rest.windows(end.len()).any(|bytes| bytes == end));
    assert!(rt; rest.ends_with(b"drain i11\nsettle\nundrain i11\nsettle\nsummary\n".as_slice()));
    Ok(())
}
