//! The generator of inputs: a description and a script, of a seed and a size.
#![tactic(auto)]

ghost use Rattle.std.specs.Prelude.{◌≡◌, ◌≤◌, ◌++◌, [], decimal, codes, if◌then◌else◌, ◌==◌, map};
ghost use Rattle.std.specs.Prelude.{OnOk, IfOk};
ghost use Rattle.std.specs.List.{flat_map};
ghost use Rattle.hx_genwork.specs.Made;

use hx_text::{Page, Piece};
use std::alloc::{AllocError, Global};

/// What a number drawn is multiplied by for the next one.
const MULTIPLIER: u64 = 6364136223846793005;

/// What the product is raised by.
const INCREMENT: u64 = 1442695040888963407;

/// The resource of a description, up to the number of its partitions.
const RESOURCE: &str =
    "\"resources\":[{\"name\":\"db\",\"model\":\"MasterSlave\",\"replicas\":3,\"partitions\":";

/// The next number drawn after another.
fn drawn(x: u64) -> u64
    ensures { result ≡ Made.drawn x }
{
    x.wrapping_mul(MULTIPLIER).wrapping_add(INCREMENT)
}

/// The preference list of a number drawn: four instances in turn, by their numbers.
fn list_of(x: u64) -> [u64; 4]
    ensures { result ≡ Made.list_of x }
{
    let first = (x >> 33) % 12;
    [first, (first + 1) % 12, (first + 2) % 12, (first + 3) % 12]
}

/// All instances, by their numbers.
fn all_instances() -> [u64; 12]
    ensures { result ≡ Made.all_instances }
{
    [0, 1, 2, 3, 4, 5, 6, 7, 8, 9, 10, 11]
}

/// Puts an instance's name at the end. Its number has two digits at least.
fn push_name(page: &mut Page, n: u64) -> Result<(), AllocError>
    ensures { OnOk result (page.new ≡ page.old ++ Made.instance_name n) }
{
    let front = if n < 10 { "i0" } else { "i" };
    page.push_all(&[Piece::Text(front), Piece::Number(n)])
}

/// Puts an instance's name at the end, as a text of JSON.
fn push_quoted_name(page: &mut Page, n: u64) -> Result<(), AllocError>
    ensures { OnOk result (page.new ≡ page.old ++ Made.quoted (Made.instance_name n)) }
{
    page.push_str("\"")?;
    push_name(page, n)?;
    page.push_str("\"")
}

/// Puts a comma at the end, but before the first item.
fn push_comma(page: &mut Page, place: usize) -> Result<(), AllocError>
    ensures { OnOk result (page.new ≡ page.old ++ (if place == 0 then [] else codes ",")) }
{
    let comma = if place == 0 { "" } else { "," };
    page.push_str(comma)
}

/// Puts an array of the names of instances at the end.
fn push_instances(page: &mut Page, instances: &[u64]) -> Result<(), AllocError>
    ensures { OnOk result (page.new ≡ page.old ++ Made.instances_array instances.now) }
{
    page.push_str("[")?;
    for (place, n) in instances.iter().enumerate() {
        push_comma(page, place)?;
        push_quoted_name(page, *n)?;
    }
    page.push_str("]")
}

/// Puts an array of preference lists at the end, each of the next number drawn after the seed.
fn push_lists(page: &mut Page, seed: u64, size: u32) -> Result<(), AllocError>
    ensures { OnOk result
        (page.new
        ≡ page.old ++ Made.array (map Made.instances_array (Made.lists_after seed size))) }
{
    page.push_str("[")?;
    let mut x = seed;
    for place in 0..size {
        x = drawn(x);
        push_comma(page, place as usize)?;
        push_instances(page, &list_of(x))?;
    }
    page.push_str("]")
}

/// Puts the description at the end.
fn push_description(page: &mut Page, seed: u64, size: u32) -> Result<(), AllocError>
    ensures { OnOk result (page.new ≡ page.old ++ Made.description seed size) }
{
    page.push_str("{\"version\":1,\"controllers\":2,\"timeout\":30,\"instances\":")?;
    push_instances(page, &all_instances())?;
    page.push_str(",\"throttles\":[{\"scope\":\"instance\",\"limit\":4}],")?;
    page.push_str(RESOURCE)?;
    page.push_u64(u64::from(size))?;
    page.push_str(",\"mode\":\"SEMI_AUTO\",\"lists\":")?;
    push_lists(page, seed, size)?;
    page.push_str("}]}\n")
}

/// Puts the line in which an instance joins at the end.
fn push_join(page: &mut Page, n: u64) -> Result<(), AllocError>
    ensures { OnOk result (page.new ≡ page.old ++ Made.join_line n) }
{
    page.push_str("join ")?;
    push_name(page, n)?;
    page.push_str("\n")
}

/// Puts the lines in which an instance is drained and comes back at the end.
fn push_drain(page: &mut Page, n: u64) -> Result<(), AllocError>
    ensures { OnOk result (page.new ≡ page.old ++ Made.drain_lines n) }
{
    page.push_str("drain ")?;
    push_name(page, n)?;
    page.push_str("\nsettle\nundrain ")?;
    push_name(page, n)?;
    page.push_str("\nsettle\n")
}

/// Puts the script at the end.
fn push_script(page: &mut Page) -> Result<(), AllocError>
    ensures { OnOk result (page.new ≡ page.old ++ Made.script) }
{
    let instances = all_instances();
    for n in &instances {
        push_join(page, *n)?;
    }
    page.push_str("lead c1\nsettle\n")?;
    for n in &instances {
        push_drain(page, *n)?;
    }
    page.push_str("summary\n")
}

/// The input of a seed and a size, which is the number of partitions: a description in one line of
/// JSON, the separator, and a script in which each of twelve instances is drained once.
pub fn make(alloc: Global, seed: u64, size: u32) -> Result<Page, AllocError>
    requires some { 1 ≤ size }
    requires most { size ≤ 256 }
    ensures { IfOk result (λ page. page ≡ Made.made seed size) }
{
    let mut page = Page::new(alloc);
    push_description(&mut page, seed, size)?;
    page.push_str("---\n")?;
    push_script(&mut page)?;
    Ok(page)
}

#[cfg(test)]
mod tests;
