//! Laws of the words of commands.
ghost use Rattle.std.specs.Prelude.{◌≡◌, ◌↔◌, ℕ, List, Some, None, Ok, Err};
ghost use Rattle.lldp_text.specs.declared.fault.CommandFault.{CommandFault};
ghost use Rattle.lldp_text.specs.declared.fault.CommandFault.TheVariants.{Quote};
ghost use Rattle.lldp_text.specs.Words.{words_of};
ghost use Rattle.lldp_engine.specs.declared.port.status.Status.{Status};
ghost use Rattle.lldp_engine.specs.AgentState.{AgentState};
ghost use Rattle.lldp_engine.specs.Command.{Command};
ghost use Rattle.lldp_engine.specs.Forms.{status_of};
ghost use Rattle.lldp_engine.specs.Given.{said_by, command_said, command_given};
ghost use Rattle.lldp_engine.specs.Place.{place_of};
ghost use Rattle.lldp_engine.specs.Laws.FirstFault.{TellsFirstFault};
ghost use Rattle.lldp_engine.specs.Laws.OnlyForms.{AreWordsOf, IsNotInUse, IsLineOf, word_of};
ghost use Rattle.lldp_engine.specs.Laws.Places.{IsFirstPlace};

/// A command is read from the words of its form, and from no others. A line gives the command
/// exactly if it has these words and, if the command sets a limit, that limit is not in use. A word
/// is read as a status exactly if it is the word of that status.
pub fn only_forms_say_commands()
    ensures said { (agent : AgentState) (words : List (List ℕ)) (command : Command) →
        (said_by agent words ≡ Ok command) ↔ AreWordsOf agent command words }
    ensures words { (agent : AgentState) (words : List (List ℕ)) (command : Command) →
        (command_said agent words ≡ Ok command)
        ↔ (AreWordsOf agent command words × IsNotInUse agent command) }
    ensures lines { (agent : AgentState) (line : List ℕ) (command : Command) →
        (command_given agent line ≡ Ok command) ↔ IsLineOf agent command line }
    ensures statuses { (word : List ℕ) (given : Status) →
        (status_of word ≡ Some given) ↔ (word ≡ word_of given) }
{}

/// The first word that fits no command decides the fault, whatever follows it. A line with a bad
/// quote has the fault Quote. Together with `only_forms_say_commands`, this determines the command
/// or the fault of every list of words.
pub fn first_faults_are_told()
    ensures words { (agent : AgentState) (word : List ℕ) (behind : List (List ℕ)) →
        TellsFirstFault agent word behind }
    ensures lines { (agent : AgentState) (line : List ℕ) (words : List (List ℕ))
        (fault : CommandFault) → words_of line ≡ Some words → said_by agent words ≡ Err fault →
        command_given agent line ≡ Err fault }
    ensures quotes { (agent : AgentState) (line : List ℕ) → words_of line ≡ None →
        command_given agent line ≡ Err Quote }
{}

/// A word names a port exactly if it is the port's name, octet for octet. If several ports have
/// that name, it names the first.
pub fn words_name_ports_in_full()
    ensures { (names : List (List ℕ)) (word : List ℕ) (i : ℕ) →
        (place_of names word ≡ Some i) ↔ IsFirstPlace names word i }
{}
