//! Splits a line into words, which are separated by spaces and tabs and may be quoted.
ghost use Rattle.std.specs.Prelude.{◌≡◌, ℕ, ◌<◌, ◌≤◌, List, [], ◌∷◌, ◌++◌, length, false, is_some, is_ok, IsTrue, IsSomeAnd, IfOk, IfErr, IfSome, IfNone, MatchResult, MatchOption, Some, None, ok_or};
ghost use Rattle.std.specs.Option.{option_map};
ghost use Rattle.std.specs.List.{AllPass, AllByRecursion};
ghost use Rattle.std.specs.Iterator.{YieldsFirstRef, item_count};
ghost use Rattle.lldp_text.specs.Words.{words_of, is_separator, is_bare, is_unquote, may_end_word, begins_bare, begins_gap};

use crate::fault::CommandFault;
use memchr::{memchr, memchr3};
use std::marker::Model;

fn separates(octet: u8) -> bool
    ensures { result ≡ is_separator octet }
{
    octet == b' ' || octet == b'\t'
}

/// Returns the word and the rest, or the fault Quote if the rest begins with a non-separator.
fn ended_word<'l>(
    word: &'l [u8],
    rest: &'l [u8],
) -> Result<Option<(&'l [u8], &'l [u8])>, CommandFault>
    ensures ends { MatchResult result
        (λ found. IsTrue (may_end_word rest.now)
        × IsSomeAnd found (λ x. (x.0.now ≡ word.now) × (x.1.now ≡ rest.now)))
        (λ fault. (fault ≡ CommandFault.Quote) × (may_end_word rest.now ≡ false)) }
{
    match rest.first() {
        Some(octet) if !separates(*octet) => Err(CommandFault::Quote),
        _ => Ok(Some((word, rest))),
    }
}

/// Returns the separators at the beginning of the line, and the rest of the line.
fn split_at_word(line: &[u8]) -> (&[u8], &[u8])
    ensures gap { AllPass is_separator result.0.now }
    ensures whole { line.now ≡ result.0.now ++ result.1.now }
    ensures stops { begins_gap result.1.now ≡ false }
{
    let start = line
        .iter()
        .position(|c| !separates(*c))
        .unwrap_or(line.len());
    line.split_at(start)
}

/// Returns the octets before the next quote and those after it, or None if there is no quote.
fn split_at_quote(text: &[u8]) -> Option<(&[u8], &[u8])>
    ensures found { IfSome result (λ x. AllPass is_unquote x.0.now
        × (text.now ≡ x.0.now ++ 34 ∷ x.1.now)) }
    ensures none { IfNone result (AllPass is_unquote text.now) }
{
    let end = memchr(b'"', text)?;
    Some((&text[..end], &text[end + 1..]))
}

/// Returns the octets before the next space, tab or `"`, and the rest. If the text begins with an
/// unquoted word, the octets are that word.
pub fn split_at_bare(text: &[u8]) -> (&[u8], &[u8])
    ensures bare { AllPass is_bare result.0.now }
    ensures whole { text.now ≡ result.0.now ++ result.1.now }
    ensures stops { begins_bare result.1.now ≡ false }
{
    match memchr3(b' ', b'\t', b'"', text) {
        Some(end) => text.split_at(end),
        None => (text, &[]),
    }
}

/// Returns the first word, without its quotes, and the rest of the line; None if there is no word.
fn first_word(line: &[u8]) -> Result<Option<(&[u8], &[u8])>, CommandFault>
    ensures first { MatchResult result
        (λ found. MatchOption found (words_of line.now ≡ Some [])
        (λ x. words_of line.now ≡ option_map (λ words. x.0.now ∷ words) (words_of x.1.now)))
        (λ fault. (fault ≡ CommandFault.Quote) × (words_of line.now ≡ None)) }
    ensures shorter { IfOk result (λ found. IfSome found (λ x. length x.1.now < length line.now)) }
{
    let (_, text) = split_at_word(line);
    let Some((first, quoted)) = text.split_first() else {
        return Ok(None);
    };
    if *first == b'"' {
        match split_at_quote(quoted) {
            Some((word, rest)) => ended_word(word, rest),
            None => Err(CommandFault::Quote),
        }
    } else {
        let (word, rest) = split_at_bare(text);
        ended_word(word, rest)
    }
}

/// The words of a line that have not been returned yet.
#[derive(Drop)]
pub struct Words<'l> {
    rest: &'l [u8],
}

impl<'l> Model for Words<'l> {
    ghost use Rattle.std.specs.Prelude.{ℕ, List, [], unwrap_or, IsSome};
    ghost use Rattle.lldp_text.specs.Words.{words_of};

    ghost Value = { List (List ℕ) };

    ghost view = { λ w. unwrap_or (words_of w.rest.now) [] };

    ghost invariant = { λ w. IsSome (words_of w.rest.now) };
}

impl<'l> Iterator for Words<'l> {
    type Item = &'l [u8];

    ghost next_gives = { YieldsFirstRef (λ s. s) };

    ghost remaining = { item_count (λ s. s) };

    fn next(&mut self) -> Option<&'l [u8]> {
        match first_word(self.rest) {
            Ok(Some((word, rest))) => {
                self.rest = rest;
                Some(word)
            }
            _ => None,
        }
    }
}

/// Returns the fault Quote if a quote of the line is misplaced.
fn check_quotes(line: &[u8]) -> Result<(), CommandFault>
    ensures ok { is_ok result ≡ is_some (words_of line.now) }
    ensures err { IfErr result (λ fault. fault ≡ CommandFault.Quote) }
{
    // Most lines have no quote, and so no misplaced quote.
    if memchr(b'"', line).is_none() {
        return Ok(());
    }
    let mut rest = line;
    while let Some((_, after)) = first_word(rest)? {
        rest = after;
    }
    Ok(())
}

/// Splits a line into its words, in order. A quoted word is returned without its quotes.
///
/// Spaces and tabs separate words. A word is a run of octets other than space, tab and `"`, or the
/// octets between two `"`; there are no escapes. The fault is `Quote` if a `"` is inside an
/// unquoted word or is not closed, or if a closing `"` is followed by anything but a separator or
/// the end of the line. No word is longer than its line.
pub fn split(line: &[u8]) -> Result<Words<'_>, CommandFault>
    ensures words { result ≡ ok_or (words_of line.now) CommandFault.Quote }
    ensures short { IfOk result (λ words.
        AllByRecursion (λ word. length word ≤ length line.now) words) }
{
    check_quotes(line)?;
    Ok(Words { rest: line })
}
