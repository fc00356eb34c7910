//! Lines, printed word by word.
ghost use Rattle.std.specs.Prelude.{◌≡◌, ◌∷◌, ◌++◌, map, codes};
ghost use Rattle.hx_text.specs.Texts.{Prints};
ghost use Rattle.hx_print.specs.Texts;
ghost use Rattle.hx_print.specs.Tokens;

use crate::names::{instance_name, state_name};
use hx_cluster::Spec;
use hx_ids::{
    ControllerId, Epoch, InstanceId, MsgId, PartId, PassNo, ResourceId, SessionId, StateId,
};
use hx_text::Page;
use std::alloc::AllocError;

/// A word of a line.
#[derive(Clone, Copy)]
pub enum Token<'a> {
    Text(&'a str),
    Number(u64),
    Controller(ControllerId),
    Session(SessionId),
    Message(MsgId),
    Epoch(Epoch),
    Pass(PassNo),
    /// A resource by its name and number.
    Resource(&'a str, ResourceId),
    /// A part by its resource's name, and its numbers.
    Part(&'a str, PartId),
    /// Two names with a sign between.
    Pair(&'a str, &'a str, &'a str),
}

/// The words at the end of a line, of which there may be any number.
#[derive(Clone, Copy)]
pub enum Rest<'a> {
    Instances(&'a [InstanceId]),
    /// Instances with states, and a sign between.
    Pairs(&'a str, &'a [(InstanceId, StateId)]),
    /// The instances of those of the shown sessions that are among the holders.
    Holders(&'a [(SessionId, InstanceId)], &'a [SessionId]),
}

/// Prints a resource by its name and number, with a space before it.
fn print_resource(name: &str, resource: ResourceId, page: &mut Page) -> Result<(), AllocError>
    ensures { Prints (codes " " ++ Texts.numbered name.now resource) page.old result page.new }
{
    page.push_word(name)?;
    page.push_numbered(b'#', resource.0 as u64)
}

/// Prints a part by its resource's name, and its numbers, with a space before it.
fn print_part(name: &str, part: PartId, page: &mut Page) -> Result<(), AllocError>
    ensures { Prints (codes " " ++ Texts.part_of_name name.now part) page.old result page.new }
{
    print_resource(name, part.resource, page)?;
    page.push_numbered(b'/', part.index as u64)
}

/// Prints two names with a sign between, and a space before them.
#[inline(always)]
fn print_pair(a: &str, sign: &str, b: &str, page: &mut Page) -> Result<(), AllocError>
    ensures { Prints (codes " " ++ (a.now ++ sign.now ++ b.now)) page.old result page.new }
{
    page.push_word(a)?;
    page.push_str(sign)?;
    page.push_str(b)
}

/// Prints a word, with a space before it.
#[inline(always)]
pub fn print_word(word: &Token, page: &mut Page) -> Result<(), AllocError>
    ensures { Prints (codes " " ++ Tokens.token_word word.now) page.old result page.new }
{
    match word {
        Token::Text(text) => page.push_word(text),
        Token::Number(n) => page.push_numbered(b' ', *n),
        Token::Controller(k) => page.push_numbered_word(b'c', k.0 as u64 + 1),
        Token::Session(s) => page.push_numbered_word(b's', s.0),
        Token::Message(m) => page.push_numbered_word(b'm', m.0),
        Token::Epoch(e) => page.push_numbered_word(b'e', e.0),
        Token::Pass(p) => page.push_numbered_word(b'p', p.0),
        Token::Resource(name, r) => print_resource(name, *r, page),
        Token::Part(name, p) => print_part(name, *p, page),
        Token::Pair(a, sign, b) => print_pair(a, sign, b, page),
    }
}

/// Prints two words, each with a space before it.
#[inline(always)]
fn print_two(one: &Token, other: &Token, page: &mut Page) -> Result<(), AllocError>
    ensures { Prints
        ((codes " " ++ Tokens.token_word one.now) ++ (codes " " ++ Tokens.token_word other.now))
        page.old result page.new }
{
    print_word(one, page)?;
    print_word(other, page)
}

/// Prints three words, each with a space before it.
#[inline(always)]
fn print_three(one: &Token, other: &Token, third: &Token, page: &mut Page) -> Result<(), AllocError>
    ensures { Prints
        (((codes " " ++ Tokens.token_word one.now) ++ (codes " " ++ Tokens.token_word other.now))
        ++ (codes " " ++ Tokens.token_word third.now))
        page.old result page.new }
{
    print_two(one, other, page)?;
    print_word(third, page)
}

/// Prints words one by one, each with a space before it.
fn print_each(words: &[Token], page: &mut Page) -> Result<(), AllocError>
    ensures { Prints (Texts.spaced (Tokens.words_of words.now)) page.old result page.new }
{
    for word in words {
        print_word(word, page)?;
    }
    Ok(())
}

/// Prints words, each with a space before it. What kind of word each of a few is, is known where
/// this is called, and isn't asked again.
#[inline(always)]
pub fn print_words(words: &[Token], page: &mut Page) -> Result<(), AllocError>
    ensures { Prints (Texts.spaced (Tokens.words_of words.now)) page.old result page.new }
{
    match words {
        [one] => print_word(one, page),
        [one, other] => print_two(one, other, page),
        [one, other, third] => print_three(one, other, third, page),
        _ => print_each(words, page),
    }
}

/// Prints a line: its first word, and the others.
#[inline(always)]
pub fn print_line(first: &str, others: &[Token], page: &mut Page) -> Result<(), AllocError>
    ensures { Prints (Texts.line_of (first.now ∷ Tokens.words_of others.now))
        page.old result page.new }
{
    page.push_str(first)?;
    print_end(others, page)
}

/// Prints the names of instances, each with a space before it.
fn print_instances(list: &[InstanceId], spec: &Spec, page: &mut Page) -> Result<(), AllocError>
    ensures { Prints (Texts.spaced (map (Texts.instance_name spec.now) list.now))
        page.old result page.new }
{
    for instance in list {
        print_word(&Token::Text(instance_name(spec, *instance)), page)?;
    }
    Ok(())
}

/// Prints instances with states, each with a space before it.
fn print_pairs(
    sign: &str,
    entries: &[(InstanceId, StateId)],
    spec: &Spec,
    page: &mut Page,
) -> Result<(), AllocError>
    ensures { Prints (Texts.spaced (map (Texts.pair_name spec.now sign.now) entries.now))
        page.old result page.new }
{
    for entry in entries {
        let instance = instance_name(spec, entry.0);
        let state = state_name(spec, entry.1);
        print_word(&Token::Pair(instance, sign, state), page)?;
    }
    Ok(())
}

/// Whether a shown session is among the holders.
fn is_holder(holders: &[SessionId], shown: (SessionId, InstanceId)) -> bool
    ensures { result ≡ Texts.is_holder holders.now shown }
{
    holders.contains(&shown.0)
}

/// Prints the instances of those of the shown sessions that are among the holders.
fn print_holders(
    shown: &[(SessionId, InstanceId)],
    holders: &[SessionId],
    spec: &Spec,
    page: &mut Page,
) -> Result<(), AllocError>
    ensures { Prints (Texts.spaced (Texts.holder_names spec.now shown.now holders.now))
        page.old result page.new }
{
    for entry in shown {
        if is_holder(holders, *entry) {
            print_word(&Token::Text(instance_name(spec, entry.1)), page)?;
        }
    }
    Ok(())
}

/// Prints the words at the end of a line.
fn print_rest(rest: &Rest, spec: &Spec, page: &mut Page) -> Result<(), AllocError>
    ensures { Prints (Texts.spaced (Tokens.rest_words spec.now rest.now)) page.old result page.new }
{
    match rest {
        Rest::Instances(list) => print_instances(list, spec, page),
        Rest::Pairs(sign, entries) => print_pairs(sign, entries, spec, page),
        Rest::Holders(shown, holders) => print_holders(shown, holders, spec, page),
    }
}

/// Prints a line that ends with any number of words.
pub fn print_long_line(
    first: &str,
    words: &[Token],
    rest: &Rest,
    spec: &Spec,
    page: &mut Page,
) -> Result<(), AllocError>
    ensures { Prints
        (Texts.line_of (first.now ∷
        (Tokens.words_of words.now ++ Tokens.rest_words spec.now rest.now)))
        page.old result page.new }
{
    print_start(first, words, page)?;
    print_rest(rest, spec, page)?;
    page.push_byte(b'\n')
}

/// Prints the start of a line: its first word, and others.
#[inline(always)]
pub(crate) fn print_start(first: &str, words: &[Token], page: &mut Page) -> Result<(), AllocError>
    ensures { Prints (first.now ++ Texts.spaced (Tokens.words_of words.now))
        page.old result page.new }
{
    page.push_str(first)?;
    print_words(words, page)
}

/// Prints the words at the end of a line that was started.
#[inline(always)]
pub(crate) fn print_end(words: &[Token], page: &mut Page) -> Result<(), AllocError>
    ensures { Prints (Texts.spaced (Tokens.words_of words.now) ++ codes "\n")
        page.old result page.new }
{
    print_words(words, page)?;
    page.push_byte(b'\n')
}
