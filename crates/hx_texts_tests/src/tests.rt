ghost use Rattle.std.specs.Prelude.{IfSome};
ghost use Rattle.hx_script.specs.Parsing.{IsReadable};

use hx_cluster::Spec;
use hx_text::{Lines, Page, split_lines};
use std::alloc::Global;
use std::fmt::Debug;
use std::process::Abort;
use std::test::Fail;

mod descriptions;
mod histories;
mod lines;
mod logs;
mod pages;
mod printing;
mod scripts;
mod words;

/// What is found is what is wanted. Inline, an `assert_eq!` takes longer to prove.
fn expect<T: PartialEq + Debug>(rt: &impl Abort, found: &T, wanted: &T) {
    assert_eq!(rt; found, wanted);
}

fn expect_page(rt: &impl Abort, page: &Page, wanted: &str) {
    expect(rt, &page.as_bytes(), &wanted.as_bytes());
}

/// Two resources: `logs` has number 0, and `db` number 1.
const DESCRIPTION: &str =
    "{\"version\":1,\"controllers\":2,\"timeout\":30,\"instances\":[\"n1\",\"n2\",\"n3\"],
\"resources\":[{\"name\":\"logs\",\"model\":\"MasterSlave\",\"replicas\":1,\"partitions\":1,\"mode\":\"FULL_AUTO\"},
{\"name\":\"db\",\"model\":\"MasterSlave\",\"replicas\":2,\"partitions\":8,\"mode\":\"FULL_AUTO\"}]}
---
";

fn small_spec(alloc: Global) -> Result<Spec, Fail> {
    match hx_desc::read(alloc, DESCRIPTION.as_bytes()) {
        Ok(spec) => Ok(spec),
        Err(_) => Err("no description".into()),
    }
}

/// The lines of a short text, which may be read with the names of a description.
fn short_lines(alloc: Global, spec: &Spec, text: &str) -> Option<Lines>
    ensures { IfSome result (λ lines. IsReadable spec.now lines) }
{
    let bytes = text.as_bytes();
    let is_small = bytes.len() < 10_000
        && spec.model_names.len() <= 256
        && spec.states.len() <= 256
        && spec.resource_names.len() < 10_000;
    if !is_small {
        return None;
    }
    match split_lines(alloc, bytes, 16_384) {
        Ok(lines) if lines.len() < 10_000 => Some(lines),
        _ => None,
    }
}
