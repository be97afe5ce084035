//! The lines of each show, and the sinks that take them.
ghost use Rattle.std.specs.Prelude.{◌≡◌, ◌≤◌, ◌↔◌, ℕ, List, [], ◌∷◌, ◌++◌, length, Some, None};
ghost use Rattle.std.specs.Borrow.{MutBor};
ghost use Rattle.lldp_text.specs.declared.writing.TheConstants.{MOST_LINE};
ghost use Rattle.lldp_text.specs.Text.{ended};
ghost use Rattle.lldp_engine.specs.declared.command.Show.{Show};
ghost use Rattle.lldp_engine.specs.AgentState.{AgentState};
ghost use Rattle.lldp_engine.specs.Lines.{lines_of};
ghost use Rattle.lldp_engine.specs.Takes.{Takes};
ghost use Rattle.lldp_engine.specs.LineRoom.{TakesWritten, TakesAny};
ghost use Rattle.lldp_engine.specs.Laws.Shows.{whole_of, Adds};

/// Each show has exactly the lines that `whole_of` lists, octet by octet: those of all ports, of
/// all neighbors and of all their kept TLVs.
#[tactic(auto, using(crate::proofs::ForLaws::Shows::whole))]
pub fn shows_have_these_lines_alone()
    ensures { (show : Show) (agent : AgentState) → lines_of show agent ≡ whole_of show agent }
{}

/// A sink that adds each line to a list has taken some lines exactly if they were added, all and in
/// their order. It takes a line of at most 2,048 octets that was written with its line feed, and
/// any line for which it lends no writer.
pub fn sinks_take_each_line()
    ensures all { (before after lines : List (List ℕ)) →
        Takes Adds before after lines ↔ (after ≡ before ++ lines) }
    ensures written { (before after : List (List ℕ)) (writer : MutBor (List ℕ))
        (line : List ℕ) → length line ≤ MOST_LINE →
        TakesWritten Adds before (Some writer) after (writer.now ++ ended line) →
        after ≡ before ++ line ∷ [] }
    ensures any { (before after : List (List ℕ)) (line : List ℕ) →
        TakesAny Adds before None after → after ≡ before ++ line ∷ [] }
{}
