//! The lines of a text.
ghost use Rattle.std.specs.Prelude.{◌≡◌, ◌+◌, ◌-◌, ◌^◌, ◌<◌, ◌⊎◌, ◌↔◌, IsTrue, [], ◌∷◌, ◌++◌, length, slice_get, slice_index, Some, None, OnOk, OnErr, IfOk, IfErr, MatchResult};
ghost use Rattle.std.specs.List.{concat};
ghost use Rattle.hx_text.specs.Faults.{line_fault, lines_fault};
ghost use Rattle.hx_text.specs.Lines.{lines_of};

use crate::line_ends::{split_line, split_text};
use std::alloc::{AllocError, Global};
use std::marker::Model;
use std::str;

/// Lines of text. Contracts see them as the list of their bytes.
pub struct Lines {
    /// All lines, one behind the other.
    text: String,
    /// Where each line ends in that text.
    ends: Vec<u32>,
}

// A derived drop is written out, field by field, wherever one is dropped; this is a call.
impl Drop for Lines {
    fn drop(self) {
        let Lines { text: _, ends: _ } = self;
    }
}

impl Model for Lines {
    ghost use Rattle.std.specs.Prelude.{List, ℕ};
    ghost use Rattle.std.specs.String.{string_bytes};
    ghost use Rattle.hx_text.specs.LineTable.{lines_between, IsLineTable};

    ghost Value = { List (List ℕ) };

    ghost view = { λ a. lines_between (string_bytes a.text) 0 a.ends.items };

    ghost invariant = { λ a. IsLineTable (string_bytes a.text) a.ends.items };
}

/// Why a text is not taken apart into lines.
#[derive(Clone, Copy, Debug, PartialEq, Eq)]
pub enum TextFault {
    NotUtf8 { line: u32 },
    LineTooLong { line: u32 },
    OutOfMemory,
}

impl From<AllocError> for TextFault {
    ghost use Rattle.hx_text.specs.declared.line_table.TextFault.TheVariants.{OutOfMemory};

    ghost from_gives = { λ _ e. e ≡ OutOfMemory };

    fn from(_e: AllocError) -> TextFault {
        TextFault::OutOfMemory
    }
}

/// Where the line at a place begins, by the ends of all lines.
fn start_of(ends: &[u32], place: usize) -> u32
    requires { place < length ends.now }
    ensures { result ≡ slice_index (0 ∷ ends.now) place }
{
    if place == 0 { 0 } else { ends[place - 1] }
}

impl Lines {
    /// No lines, with room for a text of so many bytes.
    fn with_room(alloc: Global, bytes: usize) -> Result<Lines, AllocError>
        ensures { IfOk result (λ lines. lines ≡ []) }
    {
        Ok(Lines {
            text: String::with_capacity(alloc, bytes)?,
            ends: Vec::new(alloc),
        })
    }

    /// How many lines there are.
    pub fn len(&self) -> u32
        ensures { result ≡ length self.now }
    {
        self.ends.len() as u32
    }

    /// Whether there are none.
    pub fn is_empty(&self) -> bool
        ensures { IsTrue result ↔ (self.now ≡ []) }
    {
        self.len() == 0
    }

    /// The line at a place, from 0. It takes no memory.
    pub fn get(&self, place: u32) -> &str
        requires { place < length self.now }
        ensures { slice_get self.now place ≡ Some result.now }
    {
        let start = start_of(self.ends.as_slice(), place as usize);
        let end = self.ends[place as usize];
        &self.text.as_str()[start as usize..end as usize]
    }

    /// Puts a line at the end.
    fn push(&mut self, line: &str) -> Result<(), AllocError>
        requires few { length self.old < 2 ^ 32 - 1 }
        requires room { length (concat self.old) + length line.now < 2 ^ 32 }
        ensures ok { OnOk result (self.new ≡ self.old ++ line.now ∷ []) }
        ensures err { OnErr result (self.new ≡ self.old) }
    {
        self.ends.reserve(1)?;
        self.text.push_str(line)?;
        self.ends.push_reserved(self.text.len() as u32);
        Ok(())
    }
}

/// A line as text, if nothing is wrong with it.
fn check_line(line: &[u8], number: u32, most: usize) -> Result<&str, TextFault>
    ensures ok { IfOk result (λ text.
        (text.now ≡ line.now) × (line_fault most number line.now ≡ None)) }
    ensures err { IfErr result (λ e. line_fault most number line.now ≡ Some e) }
{
    match str::from_utf8(line) {
        Err(_) => Err(TextFault::NotUtf8 { line: number }),
        Ok(_) if line.len() > most => Err(TextFault::LineTooLong { line: number }),
        Ok(text) => Ok(text),
    }
}

/// Looks whether a line of text is too long.
fn check_length(line: &str, number: u32, most: usize) -> Result<(), TextFault>
    ensures ok { OnOk result (line_fault most number line.now ≡ None) }
    ensures err { IfErr result (λ e. line_fault most number line.now ≡ Some e) }
{
    if line.len() > most {
        return Err(TextFault::LineTooLong { line: number });
    }
    Ok(())
}

/// Takes a text apart into its lines, as `split_lines` does.
fn split_valid(alloc: Global, text: &str, most: usize) -> Result<Lines, TextFault>
    requires { length text.now < 2 ^ 32 - 1 }
    ensures ok { IfOk result (λ lines.
        (lines ≡ lines_of text.now) × (lines_fault most text.now ≡ None)) }
    ensures err { IfErr result (λ e.
        (e ≡ TextFault.OutOfMemory) ⊎ (lines_fault most text.now ≡ Some e)) }
{
    let mut lines = Lines::with_room(alloc, text.len())?;
    let mut rest = text;
    while !rest.is_empty() {
        let (line, behind) = split_text(rest);
        check_length(line, lines.len() + 1, most)?;
        lines.push(line)?;
        rest = behind;
    }
    Ok(lines)
}

/// Takes bytes apart into lines, as `split_lines` does. Each line is looked at by itself.
fn split_checked(alloc: Global, bytes: &[u8], most: usize) -> Result<Lines, TextFault>
    requires { length bytes.now < 2 ^ 32 - 1 }
    ensures ok { IfOk result (λ lines.
        (lines ≡ lines_of bytes.now) × (lines_fault most bytes.now ≡ None)) }
    ensures err { IfErr result (λ e.
        (e ≡ TextFault.OutOfMemory) ⊎ (lines_fault most bytes.now ≡ Some e)) }
{
    let mut lines = Lines::with_room(alloc, bytes.len())?;
    let mut rest = bytes;
    while !rest.is_empty() {
        let (line, behind) = split_line(rest);
        let text = check_line(line, lines.len() + 1, most)?;
        lines.push(text)?;
        rest = behind;
    }
    Ok(lines)
}

/// Takes a text apart into its lines, of which each has `most` bytes at most.
///
/// A line ends at `\n` or at the end of the text. One `\r` before that `\n` isn't part of it. The
/// fault is that of the first line that has one, where lines are numbered from 1. Of a line that
/// isn't UTF-8 the length isn't asked.
pub fn split_lines(alloc: Global, bytes: &[u8], most: usize) -> Result<Lines, TextFault>
    requires { length bytes.now < 2 ^ 32 - 1 }
    ensures ok { IfOk result (λ lines.
        (lines ≡ lines_of bytes.now) × (lines_fault most bytes.now ≡ None)) }
    ensures err { IfErr result (λ e.
        (e ≡ TextFault.OutOfMemory) ⊎ (lines_fault most bytes.now ≡ Some e)) }
{
    match str::from_utf8(bytes) {
        Ok(text) => split_valid(alloc, text, most),
        Err(_) => split_checked(alloc, bytes, most),
    }
}
