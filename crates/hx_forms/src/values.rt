//! Texts, numbers and names.
ghost use Rattle.std.specs.Prelude.{◌≡◌, ◌<◌, ◌≤◌, length, IfOk, false};
ghost use Rattle.std.specs.List.{list_any};
ghost use Rattle.std.specs.Str.{bytes_eq};
ghost use Rattle.serde_json.specs.View.{view};
ghost use Rattle.hx_forms.specs.Found.{text_in, whole_in, number_in, new_name_in, place_in};
ghost use Rattle.hx_forms.specs.Reading.{Reads, at_ok};

use crate::faults::{DescKind, DescRefusal, fault};
use hx_ids::Names;
use hx_text::is_name;
use serde_json::Value;
use std::alloc::Global;

/// A text.
pub fn text(alloc: Global, value: &Value) -> Result<&str, DescRefusal>
    ensures { Reads (at_ok (λ s. s.now) result) (text_in (view value.now)) }
{
    match value.as_str() {
        Some(text) => Ok(text),
        None => Err(fault(alloc, DescKind::WrongType)),
    }
}

/// A whole number.
pub fn whole(alloc: Global, value: &Value) -> Result<u64, DescRefusal>
    ensures { Reads result (whole_in (view value.now)) }
{
    match value.as_u64() {
        Some(n) => Ok(n),
        None => Err(fault(alloc, DescKind::WrongType)),
    }
}

/// A number from a least to a most.
pub fn number(alloc: Global, low: u64, high: u64, value: &Value) -> Result<u64, DescRefusal>
    ensures read { Reads result (number_in low high (view value.now)) }
    ensures range { IfOk result (λ n. (low ≤ n) × (n ≤ high)) }
{
    let n = whole(alloc, value)?;
    if n < low || high < n {
        return Err(fault(alloc, DescKind::OutOfRange));
    }
    Ok(n)
}

/// The place of a name that was declared.
pub fn place(
    alloc: Global,
    unknown: DescKind,
    names: &Names,
    value: &Value,
) -> Result<u32, DescRefusal>
    ensures read { Reads result (place_in unknown names.now (view value.now)) }
    ensures range { IfOk result (λ place. place < length names.now) }
{
    let name = text(alloc, value)?;
    match names.find(name) {
        Some(place) => Ok(place),
        None => Err(fault(alloc, unknown)),
    }
}

/// Whether a name is among those that were declared.
fn is_declared(names: &Names, name: &str) -> bool
    ensures { result ≡ list_any (bytes_eq name.now) names.now }
{
    names.find(name).is_some()
}

/// A name that is declared beside others.
pub fn new_name<'a>(alloc: Global, names: &Names, value: &'a Value) -> Result<&'a str, DescRefusal>
    ensures read { Reads (at_ok (λ s. s.now) result) (new_name_in names.now (view value.now)) }
    ensures new { IfOk result (λ name. list_any (bytes_eq name.now) names.now ≡ false) }
{
    let name = text(alloc, value)?;
    if !is_name(name) {
        return Err(fault(alloc, DescKind::BadName));
    }
    if is_declared(names, name) {
        return Err(fault(alloc, DescKind::Twice));
    }
    Ok(name)
}
