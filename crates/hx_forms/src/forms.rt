//! Forms: what a value is read as, whichever member or item it is.
ghost use Rattle.std.specs.Prelude.{◌≡◌, ◌≤◌, ℕ, ◌+◌, ⊤, IfOk, false};
ghost use Rattle.std.specs.List.{list_any};
ghost use Rattle.std.specs.Str.{bytes_eq};
ghost use Rattle.serde_json.specs.Data.{Data};
ghost use Rattle.serde_json.specs.View.{view};
ghost use Rattle.hx_forms.specs.Found.{Found, number_in, new_name_in};
ghost use Rattle.hx_forms.specs.Reading.{Reads};

use crate::faults::DescRefusal;
use crate::values::{new_name, number};
use hx_ids::Names;
use serde_json::Value;
use std::alloc::{AllocError, Global};
use std::marker::Model;

/// What a value is read as.
pub trait Form: Drop {
    type Output: Drop;

    ghost found: { Self → Data → Found Self.Output };

    ghost known: { Self → Self.Output → Type 0 } = { λ _ _. ⊤ };

    fn read(self, alloc: Global, value: &Value) -> Result<Self::Output, DescRefusal>
        ensures read { Reads result (found self (view value.now)) }
        ensures known { IfOk result (known self) };
}

/// What an item of an array is read as, behind those before it.
pub trait ItemForm {
    type Items: Drop;

    ghost found: { Self → Self.Items → Data → Found Self.Items };

    // What holds of the items while so many more may come.
    ghost kept: { Self → ℕ → Self.Items → Type 0 } = { λ _ _ _. ⊤ };

    fn read_next(
        &self,
        alloc: Global,
        items: Self::Items,
        value: &Value,
    ) -> Result<Self::Items, DescRefusal>
        requires { (more : ℕ) × kept self.now (more + 1) items }
        ensures read { Reads result (found self.now items (view value.now)) }
        ensures kept { (more : ℕ) → kept self.now (more + 1) items
            → IfOk result (kept self.now more) };
}

/// A number of 64 bits from a least to a most.
#[derive(Clone, Copy)]
pub struct Number {
    pub low: u64,
    pub high: u64,
}

impl Form for Number {
    type Output = u64;

    ghost found = { λ form d. number_in form.low form.high d };

    ghost known = { λ form n. (form.low ≤ n) × (n ≤ form.high) };

    fn read(self, alloc: Global, value: &Value) -> Result<u64, DescRefusal> {
        number(alloc, self.low, self.high, value)
    }
}

/// A number of 32 bits from a least to a most.
#[derive(Clone, Copy)]
pub struct SmallNumber {
    pub low: u32,
    pub high: u32,
}

impl Form for SmallNumber {
    type Output = u32;

    ghost found = { λ form d. number_in form.low form.high d };

    ghost known = { λ form n. (form.low ≤ n) × (n ≤ form.high) };

    fn read(self, alloc: Global, value: &Value) -> Result<u32, DescRefusal> {
        Ok(number(alloc, self.low as u64, self.high as u64, value)? as u32)
    }
}

/// A name that a description declares. Contracts see it as its bytes.
#[derive(Drop)]
pub struct Name {
    text: String,
}

impl Model for Name {
    ghost use Rattle.std.specs.Prelude.{List, ℕ};
    ghost use Rattle.std.specs.String.{string_bytes};

    ghost Value = { List ℕ };

    ghost view = { λ a. string_bytes a.text };
}

impl Name {
    /// A name of this text.
    pub fn from_str(alloc: Global, text: &str) -> Result<Name, AllocError>
        ensures { IfOk result (λ name. name ≡ text.now) }
    {
        Ok(Name {
            text: text.to_owned(alloc)?,
        })
    }

    /// The text.
    pub fn as_str(&self) -> &str
        ensures { result.now ≡ self.now }
    {
        self.text.as_str()
    }
}

/// A name that is declared beside others.
#[derive(Clone, Copy)]
pub struct NewName<'a> {
    pub names: &'a Names,
}

impl Form for NewName<'_> {
    type Output = Name;

    ghost found = { λ form d. new_name_in form.names.now d };

    ghost known = { λ form name. list_any (bytes_eq name) form.names.now ≡ false };

    fn read(self, alloc: Global, value: &Value) -> Result<Name, DescRefusal> {
        let name = new_name(alloc, self.names, value)?;
        Ok(Name::from_str(alloc, name)?)
    }
}
