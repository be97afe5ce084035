//! How the program ends, what it reports, and which arguments it refuses.
ghost use Rattle.std.specs.Prelude.{ℕ, List, Option};
ghost use Rattle.std.specs.Borrow.{Bor};
ghost use Rattle.clap.specs.Walk.{Row, Text};
ghost use Rattle.lldp_engine.specs.AgentState.{AgentState};
ghost use Rattle.lldp_engine.specs.Past.{Past};
ghost use Rattle.lldp_program.specs.Faults.Told.{Stream};
ghost use Rattle.lldp_program.specs.Laws.Counted.{CountsCalls};
ghost use Rattle.lldp_program.specs.Laws.Ends.{AnswersByStatus, EndsTelling, RefusesAloud, RunsItsInput, TellsFault};
ghost use Rattle.lldp_program.specs.Laws.Refused.{GoesOn, RefusesBadAddresses, SortsWords};
ghost use Rattle.lldp_program.specs.declared.fault.ProgramFault.{ProgramFault};

/// Each failed call of a device adds one to the count of its failures, and each read of no octets
/// adds one to the count of its ends. No other call changes these counts.
#[tactic(auto, using(crate::proofs::ForLaws::Ends::counts_calls))]
pub fn devices_count_their_calls()
    ensures { (n m : ℕ) → CountsCalls n m }
{}

/// If nothing was written to the stream of faults and no write to it failed, no refusal was
/// reported, and the status is 0. With status 0 and without `--listen`, exactly the text of the
/// input was written, for an agent with the options of the arguments.
#[tactic(auto, using(crate::proofs::ForLaws::Ends::statuses_are_told))]
pub fn no_fault_ends_the_program_in_silence()
    ensures told { (fault : ProgramFault) (old new : List ℕ) (n m : ℕ) →
        TellsFault fault old new n m }
    ensures ends { (fault : ProgramFault) (old new : List ℕ) (n m status : ℕ) →
        EndsTelling fault old new n m status }
    ensures refused { (words : List Text) (old : List ℕ) (n : ℕ) → RefusesAloud words old n }
    ensures answered { (words : List Text) (to_come left old new : Option (List ℕ))
        (faults : List ℕ) (told : Stream) (n status : ℕ) →
        AnswersByStatus words to_come left old new faults told n status }
    ensures ran { (words : List Text) (input left old new : List ℕ) (before after : Stream) →
        RunsItsInput words input left old new before after }
{}

/// Options are asked for only if both addresses can be read. A bad MAC is the first fault. Two
/// command lines are worked examples.
#[tactic(auto, using(crate::proofs::ForLaws::Refused::arguments_are_refused))]
pub fn arguments_are_refused()
    ensures addresses { (rows : List Row) → RefusesBadAddresses rows }
    ensures words { (roles : Bor (List (Bor Text))) → SortsWords roles }
{}

/// An agent that goes on from a past with one more event also goes on from the past without it.
#[tactic(auto, using(crate::proofs::ForLaws::Refused::goes_on))]
pub fn agents_go_on_from_each_earlier_past()
    ensures { (past : Past) (agent : AgentState) → GoesOn past agent }
{}
