//! Where lines end, where an input is cut, and the words of a line.
ghost use Rattle.std.specs.Prelude.{◌≡◌, ◌<◌, ◌≤◌, ◌==◌, map, length, OnOk, OnErr, MatchOption};
ghost use Rattle.std.specs.List.{position, position_or_len, before_first, after_first};
ghost use Rattle.std.specs.Option.{option_map};
ghost use Rattle.std.specs.Str.Lines.{strip_carriage_return};
ghost use Rattle.hx_text.specs.Lines.{is_line_feed, first_line, after_line, cut_of, words_of, IsFront};

use std::alloc::AllocError;

/// The line between a description and what follows it.
const SEPARATOR: [u8; 3] = *b"---";

/// An input in two parts.
#[derive(Clone, Copy, Debug, PartialEq, Eq)]
pub struct Input<'a> {
    /// The bytes before the separator line.
    pub description: &'a [u8],
    /// The bytes behind the separator line and its end.
    pub script: &'a [u8],
}

/// The line without a carriage return at its end.
fn without_return(line: &[u8]) -> &[u8]
    ensures { result.now ≡ strip_carriage_return line.now }
{
    match line {
        [front @ .., b'\r'] => front,
        _ => line,
    }
}

/// The first place of a byte.
fn find_byte(bytes: &[u8], byte: u8) -> Option<usize>
    ensures { result ≡ position (λ b. b == byte) bytes.now }
{
    bytes.iter().position(|b| *b == byte)
}

/// The first line, and what stands behind its end.
pub fn split_line(bytes: &[u8]) -> (&[u8], &[u8])
    ensures line { result.0.now ≡ first_line bytes.now }
    ensures rest { result.1.now ≡ after_line bytes.now }
{
    match find_byte(bytes, b'\n') {
        Some(end) => (without_return(&bytes[..end]), &bytes[end + 1..]),
        None => (bytes, &bytes[bytes.len()..]),
    }
}

/// Cuts a text at the first place of an ASCII byte: what stands before it, and behind it.
fn cut_at(text: &str, byte: u8) -> Option<(&str, &str)>
    requires { byte < 128 }
    ensures { MatchOption result (length text.now ≤ position_or_len (λ b. b == byte) text.now)
        (λ halves. (halves.0.now ≡ before_first (λ b. b == byte) text.now)
        × (halves.1.now ≡ after_first (λ b. b == byte) text.now)
        × (position_or_len (λ b. b == byte) text.now < length text.now)) }
{
    match find_byte(text.as_bytes(), byte) {
        None => None,
        Some(end) => Some((&text[..end], &text[end + 1..])),
    }
}

/// The line without a carriage return at its end.
fn text_without_return(line: &str) -> &str
    ensures { result.now ≡ strip_carriage_return line.now }
{
    match line.as_bytes() {
        [.., b'\r'] => &line[..line.len() - 1],
        _ => line,
    }
}

/// The first line of a text, and what stands behind its end.
pub(crate) fn split_text(text: &str) -> (&str, &str)
    ensures line { result.0.now ≡ first_line text.now }
    ensures rest { result.1.now ≡ after_line text.now }
{
    match cut_at(text, b'\n') {
        Some((line, behind)) => (text_without_return(line), behind),
        None => (text, &text[text.len()..]),
    }
}

/// Cuts an input at its first line that is exactly `---`. Without such a line it is no input.
///
/// One `\r` before the `\n` of a line isn't part of that line. Before the end of the input it is.
pub fn cut(bytes: &[u8]) -> Option<Input<'_>>
    ensures { option_map (λ i. (i.description.now, i.script.now)) result ≡ cut_of bytes.now }
{
    let mut rest = bytes;
    while !rest.is_empty() {
        let (line, behind) = split_line(rest);
        if line == SEPARATOR.as_slice() {
            return Some(Input {
                description: &bytes[..bytes.len() - rest.len()],
                script: behind,
            });
        }
        rest = behind;
    }
    None
}

/// Puts the words of a line, which one or more spaces part, into a list in place of what it holds.
/// For want of memory the list then holds the first of them.
pub fn split_words<'a>(line: &'a str, words: &mut Vec<&'a str>) -> Result<(), AllocError>
    ensures ok { OnOk result (map (λ w. w.now) words.new.items ≡ words_of line.now) }
    ensures err { OnErr result (IsFront (map (λ w. w.now) words.new.items) (words_of line.now)) }
{
    words.clear();
    let mut rest = line;
    while let Some((word, behind)) = cut_at(rest, b' ') {
        if !word.is_empty() {
            words.push(word)?;
        }
        rest = behind;
    }
    if !rest.is_empty() {
        words.push(rest)?;
    }
    Ok(())
}
