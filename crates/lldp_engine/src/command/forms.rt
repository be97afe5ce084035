//! Functions that read the words of a command, one after another.
ghost use Rattle.std.specs.Prelude.{◌≡◌, ◌≢◌, ℕ, ◌≤◌, List, [], ◌∷◌, true, IfOk, MatchResult};
ghost use Rattle.std.specs.Str.{bytes_eq};
ghost use Rattle.lldp_text.specs.Text.{is_text};
ghost use Rattle.lldp_engine.specs.AgentState.{names_of, IsPort};
ghost use Rattle.lldp_engine.specs.Forms.{Form, word, number, text, status, status_of};
ghost use Rattle.lldp_text.specs.Answer.{on_ok};
ghost use Rattle.lldp_engine.specs.Given.{Reads};
ghost use Rattle.lldp_engine.specs.NextWords.{word_said, port_said, end_said};

use crate::agent::Agent;
use crate::port::status::Status;
use lldp_text::{CommandFault, Words, is_printable_text};
use std::alloc::Allocator;

pub(crate) fn is_word(word: &[u8], expected: &str) -> bool
    ensures { result ≡ bytes_eq word.now expected.now }
{
    word == expected.as_bytes()
}

/// Returns the next word, or the fault `Unknown` if there is none.
pub fn next_word<'l>(words: &mut Words<'l>) -> Result<&'l [u8], CommandFault>
    ensures said { on_ok (λ word. (word.now, words.new)) result ≡ word_said words.old }
    ensures next { MatchResult result
        (λ word. words.old ≡ word.now ∷ words.new)
        (λ fault. (fault ≡ CommandFault.Unknown) × (words.old ≡ [])) }
{
    words.next().ok_or(CommandFault::Unknown)
}

/// Checks that no word is left. If one is left, the fault is `Extra`.
pub fn end_words(mut words: Words<'_>) -> Result<(), CommandFault>
    ensures said { result ≡ end_said words.entry }
    ensures end { MatchResult result
        (λ _. words.entry ≡ [])
        (λ fault. (fault ≡ CommandFault.Extra) × (words.entry ≢ [])) }
{
    match words.next() {
        None => Ok(()),
        Some(_) => Err(CommandFault::Extra),
    }
}

/// Reads the next word, which must be `expected`.
pub(crate) fn expect_word(words: &mut Words<'_>, expected: &str) -> Result<(), CommandFault>
    ensures { (names : List (List ℕ)) (next : Form) →
        Reads names (word expected.now next ∷ []) words.old result (λ _. next ∷ []) words.new }
{
    if is_word(next_word(words)?, expected) {
        Ok(())
    } else {
        Err(CommandFault::Unknown)
    }
}

/// Reads the next word, which must be a text: at most 255 printable octets.
pub(crate) fn next_text<'l>(words: &mut Words<'l>) -> Result<&'l [u8], CommandFault>
    ensures reads { (names : List (List ℕ)) (next : List ℕ → Form) →
        Reads names (text next ∷ []) words.old result (λ t. next t.now ∷ []) words.new }
    ensures is_text { IfOk result (λ t. is_text t.now ≡ true) }
{
    let word = next_word(words)?;
    if !is_printable_text(word) {
        return Err(CommandFault::Text);
    }
    Ok(word)
}

/// Reads the next word, which must be a number from `least` to `greatest`.
pub(crate) fn next_number(
    words: &mut Words<'_>,
    least: u16,
    greatest: u16,
) -> Result<u16, CommandFault>
    ensures reads { (names : List (List ℕ)) (next : ℕ → Form) →
        Reads names (number least greatest next ∷ []) words.old result (λ n.
        next n ∷ []) words.new }
    ensures in_range { IfOk result (λ n. (least ≤ n) × (n ≤ greatest)) }
{
    let word = next_word(words)?;
    lldp_text::number(word, least, greatest)
}

/// Reads the next word and returns the number of the port that it names. The fault is `Unknown` if
/// there is no word, and `NoSuchPort` if no port has that name.
pub fn next_port<A: Allocator>(agent: &Agent<A>, words: &mut Words<'_>) -> Result<u8, CommandFault>
    ensures said { on_ok (λ p. (p, words.new)) result
        ≡ port_said (names_of agent.now) words.old }
    ensures exists { IfOk result (λ p. IsPort agent.now p) }
{
    let name = next_word(words)?;
    agent.find_port(name).ok_or(CommandFault::NoSuchPort)
}

/// Returns the status that a word names.
fn read_status(word: &[u8]) -> Option<Status>
    ensures { result ≡ status_of word.now }
{
    if is_word(word, "rx-and-tx") {
        Some(Status::RxAndTx)
    } else if is_word(word, "rx-only") {
        Some(Status::RxOnly)
    } else if is_word(word, "tx-only") {
        Some(Status::TxOnly)
    } else if is_word(word, "disabled") {
        Some(Status::Disabled)
    } else {
        None
    }
}

/// Reads the next word, which must be a status.
pub(crate) fn next_status(words: &mut Words<'_>) -> Result<Status, CommandFault>
    ensures { (names : List (List ℕ)) (next : Status → Form) →
        Reads names (status next ∷ []) words.old result (λ s. next s ∷ []) words.new }
{
    let name = next_word(words)?;
    read_status(name).ok_or(CommandFault::Unknown)
}
