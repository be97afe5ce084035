//! The commands that change something, and how they are read from words.
ghost use Rattle.std.specs.Prelude.{◌∷◌, codes, IfOk};
ghost use Rattle.lldp_engine.specs.Event.{setting_of};
ghost use Rattle.lldp_engine.specs.Command.{set};
ghost use Rattle.lldp_engine.specs.Given.{Says};
ghost use Rattle.lldp_engine.specs.Code.SaidSetting.{IsSaid};

use crate::agent::Agent;
use crate::agent::event::{MOST_HOLD, MOST_INTERVAL, Setting};
use crate::command::forms::{
    expect_word, is_word, next_number, next_port, next_status, next_text, next_word,
};
use lldp_text::{CommandFault, Words};
use std::alloc::Allocator;

/// Reads the words after `configure system`.
fn read_system<'l, A: Allocator>(
    agent: &Agent<A>,
    words: &mut Words<'l>,
) -> Result<Setting<'l>, CommandFault>
    ensures says { Says agent.now (codes "configure" ∷ codes "system" ∷ words.old)
        result (λ s. set (setting_of s)) words.new }
    ensures said { IfOk result (λ s. IsSaid agent.now (setting_of s)) }
{
    let word = next_word(words)?;
    if is_word(word, "hostname") {
        Ok(Setting::Hostname(next_text(words)?))
    } else if is_word(word, "description") {
        Ok(Setting::Description(next_text(words)?))
    } else {
        Err(CommandFault::Unknown)
    }
}

/// Reads the words after `configure lldp`.
fn read_lldp<'l, A: Allocator>(
    agent: &Agent<A>,
    words: &mut Words<'l>,
) -> Result<Setting<'l>, CommandFault>
    ensures says { Says agent.now (codes "configure" ∷ codes "lldp" ∷ words.old)
        result (λ s. set (setting_of s)) words.new }
    ensures said { IfOk result (λ s. IsSaid agent.now (setting_of s)) }
{
    let word = next_word(words)?;
    let capacity = agent.configuration().capacity;
    if is_word(word, "tx-interval") {
        Ok(Setting::Interval(next_number(words, 1, MOST_INTERVAL)?))
    } else if is_word(word, "tx-hold") {
        Ok(Setting::Hold(next_number(words, 1, u16::from(MOST_HOLD))? as u8))
    } else if is_word(word, "max-neighbors") {
        Ok(Setting::Limit(next_number(words, 1, u16::from(capacity))? as u8))
    } else {
        Err(CommandFault::Unknown)
    }
}

/// Reads the words after `configure ports`.
fn read_ports<'l, A: Allocator>(
    agent: &Agent<A>,
    words: &mut Words<'l>,
) -> Result<Setting<'l>, CommandFault>
    ensures says { Says agent.now (codes "configure" ∷ codes "ports" ∷ words.old)
        result (λ s. set (setting_of s)) words.new }
    ensures said { IfOk result (λ s. IsSaid agent.now (setting_of s)) }
{
    let port = next_port(agent, words)?;
    expect_word(words, "lldp")?;
    expect_word(words, "status")?;
    let status = next_status(words)?;
    Ok(Setting::Status { port, status })
}

/// Reads the words after `configure`.
pub(crate) fn read_setting<'l, A: Allocator>(
    agent: &Agent<A>,
    words: &mut Words<'l>,
) -> Result<Setting<'l>, CommandFault>
    ensures says { Says agent.now (codes "configure" ∷ words.old)
        result (λ s. set (setting_of s)) words.new }
    ensures said { IfOk result (λ s. IsSaid agent.now (setting_of s)) }
{
    let word = next_word(words)?;
    if is_word(word, "system") {
        read_system(agent, words)
    } else if is_word(word, "lldp") {
        read_lldp(agent, words)
    } else if is_word(word, "ports") {
        read_ports(agent, words)
    } else {
        Err(CommandFault::Unknown)
    }
}
