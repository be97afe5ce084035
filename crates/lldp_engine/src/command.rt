//! The commands, and how they are read from a line.
ghost use Rattle.std.specs.Prelude.{◌≡◌, ◌∷◌, Ok, IfOk, codes};
ghost use Rattle.lldp_engine.specs.AgentState.{AgentState};
ghost use Rattle.lldp_text.specs.Answer.{on_ok};
ghost use Rattle.lldp_engine.specs.Command.{show, command_of, AllowsCommand};
ghost use Rattle.lldp_engine.specs.Given.{said_by, unless_in_use, command_said, command_given, Says};
ghost use Rattle.lldp_engine.specs.Code.SaidSetting.{IsSaidCommand};
ghost use Rattle.lldp_engine.specs.Past.{Past, agent_of};
ghost use Rattle.lldp_engine.specs.Standing.{Stands};

pub(crate) mod forms;
pub(crate) mod settings;

use crate::agent::Agent;
use crate::agent::event::Setting;
use crate::agent::ports::all_fit;
use crate::command::forms::{end_words, is_word, next_word};
use crate::command::settings::read_setting;
use lldp_text::{CommandFault, Words, split};
use std::alloc::Allocator;

/// What a show command shows.
#[derive(Clone, Copy, Debug, PartialEq, Eq)]
pub enum Show {
    /// The neighbors of each port.
    Neighbors,
    /// The counters of each port.
    Statistics,
    /// The agent's own identity.
    Chassis,
    /// How the agent is configured, and the status of each port.
    Configuration,
}

/// A command that was read.
#[derive(Clone, Copy, Debug, PartialEq, Eq)]
pub enum Command<'l> {
    /// A command that changes something.
    Set(Setting<'l>),
    /// A command that shows lines.
    Show(Show),
}

/// Reads the words after `show`.
fn read_show(words: &mut Words<'_>) -> Result<Show, CommandFault>
    ensures { (agent : AgentState) →
        Says agent (codes "show" ∷ words.old) result (λ what. show what) words.new }
{
    let word = next_word(words)?;
    if is_word(word, "neighbors") {
        Ok(Show::Neighbors)
    } else if is_word(word, "statistics") {
        Ok(Show::Statistics)
    } else if is_word(word, "chassis") {
        Ok(Show::Chassis)
    } else if is_word(word, "configuration") {
        Ok(Show::Configuration)
    } else {
        Err(CommandFault::Unknown)
    }
}

/// Reads a command from its first word and the words after it. Words may remain unread.
fn read_form<'l, A: Allocator>(
    agent: &Agent<A>,
    first: &[u8],
    words: &mut Words<'l>,
) -> Result<Command<'l>, CommandFault>
    ensures says { Says agent.now (first.now ∷ words.old) result command_of words.new }
    ensures said { IfOk result (λ command. IsSaidCommand agent.now (command_of command)) }
{
    if is_word(first, "show") {
        Ok(Command::Show(read_show(words)?))
    } else if is_word(first, "configure") {
        Ok(Command::Set(read_setting(agent, words)?))
    } else if is_word(first, "update") {
        Ok(Command::Set(Setting::Update))
    } else {
        Err(CommandFault::Unknown)
    }
}

/// Reads a command from its first word and the words after it. No word may remain.
fn read_whole<'l, A: Allocator>(
    agent: &Agent<A>,
    first: &[u8],
    mut words: Words<'l>,
) -> Result<Command<'l>, CommandFault>
    ensures read { on_ok command_of result ≡ said_by agent.now (first.now ∷ words.entry) }
    ensures said { IfOk result (λ command. IsSaidCommand agent.now (command_of command)) }
{
    let command = read_form(agent, first, &mut words)?;
    end_words(words)?;
    Ok(command)
}

/// Returns the command, or `InUse` if it sets a limit below the number of neighbors of a port.
fn refuse_in_use<'l, A: Allocator>(
    agent: &Agent<A>,
    command: Command<'l>,
) -> Result<Command<'l>, CommandFault>
    requires { IsSaidCommand agent.now (command_of command) }
    ensures unused { on_ok command_of result
        ≡ unless_in_use agent.now.ports (Ok (command_of command.entry)) }
    ensures allowed { IfOk result (λ c. AllowsCommand agent.now (command_of c)) }
{
    match command {
        Command::Set(Setting::Limit(limit)) if !all_fit(agent.all_ports(), limit) => {
            Err(CommandFault::InUse)
        }
        _ => Ok(command),
    }
}

impl<A: Allocator> Agent<A> {
    /// Reads a command from its first word and the words after it. Returns the command or the first
    /// fault. The checks, in this order: each word, from left to right; no word remains; no port
    /// holds more neighbors than a new limit. The agent allows a returned command.
    pub fn read_words<'l>(
        &self,
        first: &[u8],
        behind: Words<'l>,
    ) -> Result<Command<'l>, CommandFault>
        ensures read { on_ok command_of result
            ≡ command_said self.now (first.now ∷ behind.entry) }
        ensures allowed { IfOk result (λ command. AllowsCommand self.now (command_of command)) }
    {
        let command = read_whole(self, first, behind)?;
        refuse_in_use(self, command)
    }

    /// Reads a command from a line. The first fault is a bad quote anywhere, or else a fault of
    /// `read_words`. A line without words is `Unknown`. The agent allows a returned command.
    pub fn read_command<'l>(&self, line: &'l [u8]) -> Result<Command<'l>, CommandFault>
        ensures read { on_ok command_of result ≡ command_given self.now line.now }
        ensures allowed { IfOk result (λ command. AllowsCommand self.now (command_of command)) }
        ensures past { (past : Past) → Stands past self.now →
            on_ok command_of result ≡ command_given (agent_of past) line.now }
    {
        let mut words = split(line)?;
        let first = next_word(&mut words)?;
        self.read_words(first, words)
    }
}
