//! Objects, which have no members but some.
ghost use Rattle.std.specs.Prelude.{◌≡◌, map, option_map, IfOk};
ghost use Rattle.serde_json.specs.Find.{get_member};
ghost use Rattle.serde_json.specs.View.{view};
ghost use Rattle.hx_forms.specs.Found as Spec;
ghost use Rattle.hx_forms.specs.Reading.{Reads, at_ok};

use crate::faults::{DescKind, DescRefusal, fault};
use crate::forms::Form;
use serde_json::{Map, Value};
use std::alloc::Global;

/// The members of an object.
#[derive(Clone, Copy)]
pub struct Object<'a> {
    alloc: Global,
    members: &'a Map<String, Value>,
}

/// Whether a key is one of some.
fn is_among(keys: &[&str], key: &str) -> bool
    ensures { result ≡ Spec.is_among (map (λ k. k.now) keys.now) key.now }
{
    keys.iter().any(|k| key == *k)
}

impl<'a> Object<'a> {
    ghost use Rattle.hx_forms.specs.Members.{members_of};

    /// The members of an object that has none but those of some names.
    pub fn read(alloc: Global, keys: &[&str], value: &'a Value) -> Result<Object<'a>, DescRefusal>
        ensures { Reads (at_ok members_of result)
            (Spec.object_in (map (λ k. k.now) keys.now) (view value.now)) }
    {
        let Some(members) = value.as_object() else {
            return Err(fault(alloc, DescKind::WrongType));
        };
        for (key, _) in members {
            if !is_among(keys, key.as_str()) {
                return Err(fault(alloc, DescKind::UnknownKey));
            }
        }
        Ok(Object { alloc, members })
    }

    /// The value of a member.
    fn member(&self, name: &str) -> Option<&'a Value>
        ensures { option_map (λ v. view v.now) result ≡ get_member name.now (members_of self.now) }
    {
        self.members.get(name)
    }

    /// A member that must be there.
    #[tactic(auto, using(crate::proofs::Refusals::refused_within))]
    pub fn required<F: Form>(&self, name: &str, form: F) -> Result<F::Output, DescRefusal>
        ensures read { Reads result (Spec.required name.now (F.found form) (members_of self.now)) }
        ensures known { IfOk result (F.known form) }
    {
        let Some(value) = self.member(name) else {
            return Err(fault(self.alloc, DescKind::Missing).in_member(self.alloc, name));
        };
        match form.read(self.alloc, value) {
            Ok(read) => Ok(read),
            Err(refusal) => Err(refusal.in_member(self.alloc, name)),
        }
    }

    /// A member that may be there.
    #[tactic(auto, using(crate::proofs::Refusals::refused_within))]
    pub fn optional<F: Form>(
        &self,
        name: &str,
        default: F::Output,
        form: F,
    ) -> Result<F::Output, DescRefusal>
        requires { F.known form default }
        ensures read { Reads result
            (Spec.optional name.now default (F.found form) (members_of self.now)) }
        ensures known { IfOk result (F.known form) }
    {
        let Some(value) = self.member(name) else {
            return Ok(default);
        };
        match form.read(self.alloc, value) {
            Ok(read) => Ok(read),
            Err(refusal) => Err(refusal.in_member(self.alloc, name)),
        }
    }
}
