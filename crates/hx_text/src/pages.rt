//! A page of text, and the pieces that lines on it are made of.
ghost use Rattle.std.specs.Prelude.{◌≡◌, ◌+◌, ◌≤◌, ◌∷◌, ◌++◌, [], decimal, length, take, IsTrue, ◌↔◌, OnOk, OnErr};
ghost use Rattle.std.specs.List.{flat_map};
ghost use Rattle.hx_text.specs.Texts.{piece_text, Prints};

use crate::writing::{write_str, write_u64};
use std::alloc::{AllocError, Global};
use std::marker::Model;

/// How many digits a number of 64 bits has, at most.
const MOST_DIGITS: usize = 20;

/// How many bytes a page grows by, at least.
const BLOCK: usize = 4096;

/// A text that grows at its end. Contracts see it as its bytes.
#[derive(Drop)]
pub struct Page {
    /// The text, and behind it room for more.
    bytes: Vec<u8>,
    len: usize,
}

impl Model for Page {
    ghost use Rattle.std.specs.Prelude.{List, ℕ, ◌≤◌, length, take};

    ghost Value = { List ℕ };

    ghost view = { λ a. take a.len a.bytes.items };

    ghost invariant = { λ a. a.len ≤ length a.bytes.items };
}

/// A part of a line.
#[derive(Clone, Copy)]
pub enum Piece<'a> {
    Text(&'a str),
    /// A number, which is printed in decimal digits.
    Number(u64),
}

/// Makes a list of bytes longer, by so many zeros.
fn lengthen(bytes: &mut Vec<u8>, additional: usize) -> Result<(), AllocError>
    ensures ok { OnOk result (length bytes.new.items ≡ length bytes.old.items + additional) }
    ensures kept { take (length bytes.old.items) bytes.new.items ≡ bytes.old.items }
{
    bytes.reserve(additional)?;
    bytes.resize(bytes.len() + additional, 0)
}

/// Makes room for so many bytes more behind the first ones, which stay.
#[inline(always)]
fn make_room(bytes: &mut Vec<u8>, len: usize, additional: usize) -> Result<(), AllocError>
    requires { len ≤ length bytes.old.items }
    ensures ok { OnOk result (len + additional ≤ length bytes.new.items) }
    ensures kept { take len bytes.new.items ≡ take len bytes.old.items }
    ensures grown { length bytes.old.items ≤ length bytes.new.items }
{
    if additional <= bytes.len() - len {
        Ok(())
    } else if additional <= BLOCK {
        lengthen(bytes, BLOCK)
    } else {
        lengthen(bytes, additional)
    }
}

impl Page {
    /// A page without text.
    pub fn new(alloc: Global) -> Page
        ensures { result ≡ [] }
    {
        Page {
            bytes: Vec::new(alloc),
            len: 0,
        }
    }

    /// The text.
    pub fn as_bytes(&self) -> &[u8]
        ensures { result.now ≡ self.now }
    {
        &self.bytes[..self.len]
    }

    /// How many bytes it has.
    pub fn len(&self) -> usize
        ensures { result ≡ length self.now }
    {
        self.len
    }

    /// Whether it has none.
    pub fn is_empty(&self) -> bool
        ensures { IsTrue result ↔ (self.now ≡ []) }
    {
        self.len == 0
    }

    /// Puts one byte at the end.
    #[inline(always)]
    pub fn push_byte(&mut self, byte: u8) -> Result<(), AllocError>
        ensures ok { OnOk result (self.new ≡ self.old ++ byte ∷ []) }
        ensures err { OnErr result (self.new ≡ self.old) }
    {
        make_room(&mut self.bytes, self.len, 1)?;
        self.bytes[self.len] = byte;
        self.len += 1;
        Ok(())
    }

    /// Puts a text at the end.
    #[inline(always)]
    pub fn push_str(&mut self, text: &str) -> Result<(), AllocError>
        ensures ok { OnOk result (self.new ≡ self.old ++ text.now) }
        ensures err { OnErr result (self.new ≡ self.old) }
    {
        make_room(&mut self.bytes, self.len, text.len())?;
        self.len = write_str(self.bytes.as_mut_slice(), self.len, text);
        Ok(())
    }

    /// Puts a number's decimal digits at the end.
    #[inline(always)]
    pub fn push_u64(&mut self, n: u64) -> Result<(), AllocError>
        ensures ok { OnOk result (self.new ≡ self.old ++ decimal n) }
        ensures err { OnErr result (self.new ≡ self.old) }
    {
        make_room(&mut self.bytes, self.len, MOST_DIGITS)?;
        self.len = write_u64(self.bytes.as_mut_slice(), self.len, n);
        Ok(())
    }

    /// Puts a sign at the end, and a number's decimal digits behind it.
    #[inline(always)]
    pub fn push_numbered(&mut self, sign: u8, n: u64) -> Result<(), AllocError>
        ensures ok { OnOk result (self.new ≡ self.old ++ sign ∷ decimal n) }
        ensures err { OnErr result (self.new ≡ self.old) }
    {
        make_room(&mut self.bytes, self.len, 1 + MOST_DIGITS)?;
        self.bytes[self.len] = sign;
        self.len = write_u64(self.bytes.as_mut_slice(), self.len + 1, n);
        Ok(())
    }

    /// Puts a space at the end, and a text behind it.
    #[inline(always)]
    pub fn push_word(&mut self, text: &str) -> Result<(), AllocError>
        ensures ok { OnOk result (self.new ≡ self.old ++ 32 ∷ text.now) }
        ensures err { OnErr result (self.new ≡ self.old) }
    {
        make_room(&mut self.bytes, self.len, 1 + text.len())?;
        self.bytes[self.len] = b' ';
        self.len = write_str(self.bytes.as_mut_slice(), self.len + 1, text);
        Ok(())
    }

    /// Puts a space at the end, and behind it a sign and a number's decimal digits.
    #[inline(always)]
    pub fn push_numbered_word(&mut self, sign: u8, n: u64) -> Result<(), AllocError>
        ensures ok { OnOk result (self.new ≡ self.old ++ 32 ∷ sign ∷ decimal n) }
        ensures err { OnErr result (self.new ≡ self.old) }
    {
        make_room(&mut self.bytes, self.len, 2 + MOST_DIGITS)?;
        let bytes = self.bytes.as_mut_slice();
        bytes[self.len] = b' ';
        bytes[self.len + 1] = sign;
        self.len = write_u64(bytes, self.len + 2, n);
        Ok(())
    }

    /// Puts one piece at the end.
    pub fn push(&mut self, piece: &Piece) -> Result<(), AllocError>
        ensures ok { OnOk result (self.new ≡ self.old ++ piece_text piece.now) }
        ensures err { OnErr result (self.new ≡ self.old) }
    {
        match piece {
            Piece::Text(text) => self.push_str(text),
            Piece::Number(n) => self.push_u64(*n),
        }
    }

    /// Puts the pieces at the end, in order.
    pub fn push_all(&mut self, pieces: &[Piece]) -> Result<(), AllocError>
        ensures { Prints (flat_map piece_text pieces.now) self.old result self.new }
    {
        for piece in pieces {
            self.push(piece)?;
        }
        Ok(())
    }

    /// Keeps the first `len` bytes, as where a line that found no room is taken back.
    pub fn cut_to(&mut self, len: usize)
        ensures { self.new ≡ take len self.old }
    {
        self.len = self.len.min(len);
    }
}
