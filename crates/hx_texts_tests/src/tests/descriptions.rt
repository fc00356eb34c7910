use super::expect;
use hx_desc::{DescKind, DescRefusal, read};
use std::alloc::Global;
use std::process::Abort;
use std::test::Fail;

/// The first fault of each input: its kind, its path, and the input.
static FAULTS: &[(DescKind, &str, &str)] = &[
    (DescKind::NoSeparator, "$", "builtin demo\n"),
    (DescKind::BadJson, "$", "{\"version\n---\n"),
    (DescKind::WrongType, "$", "[]\n---\n"),
    (
        DescKind::WrongType,
        "$.timeout",
        "{\"version\":1,\"timeout\":1.5}\n---\n",
    ),
    (
        DescKind::UnknownKey,
        "$",
        "{\"more\":1,\"version\":2}\n---\n",
    ),
    (DescKind::Missing, "$.version", "{}\n---\n"),
    (DescKind::OutOfRange, "$.version", "{\"version\":2}\n---\n"),
    (
        DescKind::TooFew,
        "$.instances",
        "{\"version\":1,\"instances\":[]}\n---\n",
    ),
    (
        DescKind::BadName,
        "$.instances[1]",
        "{\"version\":1,\"instances\":[\"n1\",\"1n\"]}\n---\n",
    ),
    (
        DescKind::Twice,
        "$.instances[2]",
        "{\"version\":1,\"instances\":[\"n1\",\"n2\",\"n1\"]}\n---\n",
    ),
    (
        DescKind::TooMany,
        "$.models",
        "{\"version\":1,\"instances\":[\"n1\"],\"models\":[1,2,3,4,5,6]}\n---\n",
    ),
    (
        DescKind::BadBound,
        "$.models[0].states[0].bound",
        "{\"version\":1,\"instances\":[\"n1\"],\"models\":[{\"name\":\"M\",\"states\":[{\"name\":\"A\",\"bound\":\"01\"}]}]}\n---\n",
    ),
    (
        DescKind::ZeroBound,
        "$.models[0].states[0].bound",
        "{\"version\":1,\"instances\":[\"n1\"],\"models\":[{\"name\":\"M\",\"states\":[{\"name\":\"A\",\"bound\":\"0\"}]}]}\n---\n",
    ),
    (
        DescKind::ReservedState,
        "$.models[0].states[0].name",
        "{\"version\":1,\"instances\":[\"n1\"],\"models\":[{\"name\":\"M\",\"states\":[{\"name\":\"ERROR\",\"bound\":\"1\"}]}]}\n---\n",
    ),
    (
        DescKind::UnknownState,
        "$.models[0].initial",
        "{\"version\":1,\"instances\":[\"n1\"],\"models\":[{\"name\":\"M\",\"states\":[],\"initial\":\"A\"}]}\n---\n",
    ),
    (
        DescKind::InitialBounded,
        "$.models[0].initial",
        "{\"version\":1,\"instances\":[\"n1\"],\"models\":[{\"name\":\"M\",\"states\":[{\"name\":\"A\",\"bound\":\"R\"}],\"initial\":\"A\"}]}\n---\n",
    ),
    (
        DescKind::BadTransition,
        "$.models[0].transitions[0]",
        "{\"version\":1,\"instances\":[\"n1\"],\"models\":[{\"name\":\"M\",\"states\":[{\"name\":\"A\",\"bound\":\"-1\"}],\"initial\":\"A\",\"transitions\":[\"A-B\"]}]}\n---\n",
    ),
    (
        DescKind::SelfLoop,
        "$.models[0].transitions[0]",
        "{\"version\":1,\"instances\":[\"n1\"],\"models\":[{\"name\":\"M\",\"states\":[{\"name\":\"A\",\"bound\":\"-1\"}],\"initial\":\"A\",\"transitions\":[\"A>A\"]}]}\n---\n",
    ),
    (
        DescKind::TwiceTransition,
        "$.models[0].transitions[1]",
        "{\"version\":1,\"instances\":[\"n1\"],\"models\":[{\"name\":\"M\",\"states\":[{\"name\":\"A\",\"bound\":\"-1\"}],\"initial\":\"A\",\"transitions\":[\"A>DROPPED\",\"A>DROPPED\"]}]}\n---\n",
    ),
    (
        DescKind::NoDrop,
        "$.models[0]",
        "{\"version\":1,\"instances\":[\"n1\"],\"models\":[{\"name\":\"M\",\"states\":[{\"name\":\"A\",\"bound\":\"-1\"}],\"initial\":\"A\",\"transitions\":[]}]}\n---\n",
    ),
    (
        DescKind::CantReach,
        "$.models[0]",
        "{\"version\":1,\"instances\":[\"n1\"],\"models\":[{\"name\":\"M\",\"states\":[{\"name\":\"A\",\"bound\":\"-1\"},{\"name\":\"B\",\"bound\":\"1\"}],\"initial\":\"A\",\"transitions\":[\"A>DROPPED\"]}]}\n---\n",
    ),
    (
        DescKind::CantLeave,
        "$.models[0]",
        "{\"version\":1,\"instances\":[\"n1\"],\"models\":[{\"name\":\"M\",\"states\":[{\"name\":\"A\",\"bound\":\"-1\"},{\"name\":\"B\",\"bound\":\"1\"}],\"initial\":\"A\",\"transitions\":[\"A>DROPPED\",\"A>B\"]}]}\n---\n",
    ),
    (
        DescKind::BadScope,
        "$.throttles[0].scope",
        "{\"version\":1,\"instances\":[\"n1\"],\"throttles\":[{\"scope\":\"node\"}]}\n---\n",
    ),
    (
        DescKind::HalfTransition,
        "$.throttles[0]",
        "{\"version\":1,\"instances\":[\"n1\"],\"throttles\":[{\"scope\":\"cluster\",\"limit\":1,\"from\":\"MASTER\"}]}\n---\n",
    ),
    (
        DescKind::UnknownModel,
        "$.resources[0].model",
        "{\"version\":1,\"instances\":[\"n1\"],\"resources\":[{\"name\":\"db\",\"model\":\"M\"}]}\n---\n",
    ),
    (
        DescKind::BadMode,
        "$.resources[0].mode",
        "{\"version\":1,\"instances\":[\"n1\"],\"resources\":[{\"name\":\"db\",\"model\":\"MasterSlave\",\"replicas\":1,\"partitions\":1,\"mode\":\"auto\"}]}\n---\n",
    ),
    (
        DescKind::WrongMode,
        "$.resources[0].lists",
        "{\"version\":1,\"instances\":[\"n1\"],\"resources\":[{\"name\":\"db\",\"model\":\"MasterSlave\",\"replicas\":1,\"partitions\":1,\"mode\":\"FULL_AUTO\",\"lists\":[]}]}\n---\n",
    ),
    (
        DescKind::PartCount,
        "$.resources[0].lists",
        "{\"version\":1,\"instances\":[\"n1\"],\"resources\":[{\"name\":\"db\",\"model\":\"MasterSlave\",\"replicas\":1,\"partitions\":1,\"mode\":\"SEMI_AUTO\",\"lists\":[]}]}\n---\n",
    ),
    (
        DescKind::UnknownInstance,
        "$.resources[0].lists[0][1]",
        "{\"version\":1,\"instances\":[\"n1\"],\"resources\":[{\"name\":\"db\",\"model\":\"MasterSlave\",\"replicas\":1,\"partitions\":1,\"mode\":\"SEMI_AUTO\",\"lists\":[[\"n1\",\"n2\"]]}]}\n---\n",
    ),
    (
        DescKind::TwiceInList,
        "$.resources[0].lists[0][1]",
        "{\"version\":1,\"instances\":[\"n1\"],\"resources\":[{\"name\":\"db\",\"model\":\"MasterSlave\",\"replicas\":1,\"partitions\":1,\"mode\":\"SEMI_AUTO\",\"lists\":[[\"n1\",\"n1\"]]}]}\n---\n",
    ),
    (
        DescKind::UnknownResource,
        "$.failures[0].resource",
        "{\"version\":1,\"instances\":[\"n1\"],\"failures\":[{\"instance\":\"n1\",\"resource\":\"db\"}]}\n---\n",
    ),
    (
        DescKind::NoPart,
        "$.failures[0].part",
        "{\"version\":1,\"instances\":[\"n1\"],\"resources\":[{\"name\":\"db\",\"model\":\"MasterSlave\",\"replicas\":1,\"partitions\":1,\"mode\":\"FULL_AUTO\"}],\"failures\":[{\"instance\":\"n1\",\"resource\":\"db\",\"part\":1}]}\n---\n",
    ),
    (
        DescKind::RunOrMake,
        "$.failures[0]",
        "{\"version\":1,\"instances\":[\"n1\"],\"resources\":[{\"name\":\"db\",\"model\":\"MasterSlave\",\"replicas\":1,\"partitions\":1,\"mode\":\"FULL_AUTO\"}],\"failures\":[{\"instance\":\"n1\",\"resource\":\"db\",\"part\":0}]}\n---\n",
    ),
];

fn expect_fault(rt: &impl Abort, alloc: Global, input: &str, kind: DescKind, path: &str) {
    match read(alloc, input.as_bytes()) {
        Err(DescRefusal::Fault(fault)) => {
            expect(rt, &fault.kind, &kind);
            expect(rt, &fault.path.as_str(), &path);
        }
        Err(DescRefusal::OutOfMemory) => panic!(rt; "no memory for {input}"),
        Ok(_) => panic!(rt; "no fault in {input}"),
    }
}

#[test]
fn each_fault_is_told(rt: HostRuntime) {
    for (kind, path, input) in FAULTS {
        expect_fault(&rt, rt.alloc(), *input, *kind, *path);
    }
}

/// Each part of a description, with the instances out of order.
const WHOLE: &str =
    "{\"version\":1,\"controllers\":2,\"timeout\":9,\"instances\":[\"n2\",\"n10\",\"n1\"],\"models\":[{\"name\":\"M\",\"states\":[{\"name\":\"A\",\"bound\":\"-1\"},{\"name\":\"MASTER\",\"bound\":\"1\"}],\"initial\":\"A\",\"transitions\":[\"A>MASTER\",\"MASTER>A\",\"A>DROPPED\"]}],\"throttles\":[{\"scope\":\"instance\",\"limit\":3,\"from\":\"A\",\"to\":\"MASTER\"}],\"resources\":[{\"name\":\"db\",\"model\":\"M\",\"replicas\":2,\"partitions\":1,\"mode\":\"CUSTOMIZED\",\"maps\":[[{\"instance\":\"n2\",\"state\":\"MASTER\"}]]}],\"failures\":[{\"instance\":\"n2\",\"resource\":\"db\",\"part\":0,\"make\":4}]}\n---\nview\n";

#[test]
fn the_demo_is_read(rt: HostRuntime) -> Result<(), Fail> {
    let demo = read(rt.alloc(), b"builtin demo\r\n---\n".as_slice())?;
    expect(&rt, &demo.resources.len(), &1);
    Ok(())
}

#[test]
fn each_part_of_a_description_is_read(rt: HostRuntime) -> Result<(), Fail> {
    let spec = read(rt.alloc(), WHOLE.as_bytes())?;
    expect(&rt, &spec.instances.find("n10"), &Some(1));
    expect(&rt, &spec.failures.len(), &1);
    Ok(())
}
