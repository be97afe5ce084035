//! What the lines of a trace ask for.
ghost use Rattle.std.specs.Prelude.{◌≡◌, ◌↔◌, ℕ, List, Ok};
ghost use Rattle.lldp_engine.specs.AgentState.{AgentState};
ghost use Rattle.lldp_program.specs.declared.line.LineFault.{LineFault};
ghost use Rattle.lldp_program.specs.Laws.OnlyLines.{IsLineOfWork, RefusesForms, SaysItsWords};
ghost use Rattle.lldp_program.specs.Laws.Sayings.{BeginForms, CountTicks, SkipsLines};
ghost use Rattle.lldp_program.specs.Trace.Forms.{work_given};
ghost use Rattle.lldp_program.specs.Trace.Work.{Work};

/// `tick`, `rx`, `up` and `down` begin the forms of a trace, and any other first word begins a
/// command. `tick N` is N ticks. Only blank lines and comments of at most 4,096 octets are skipped.
#[tactic(auto, using(crate::proofs::ForLaws::Sayings::skips))]
pub fn first_words_decide_forms()
    ensures words { (agent : AgentState) (words : List (List ℕ)) → BeginForms agent words }
    ensures ticks { CountTicks }
    ensures skipped { (agent : AgentState) (line : List ℕ) → SkipsLines agent line }
{}

/// A line asks for what its words ask for. It asks for some work exactly if it has the words of
/// that work, octet by octet, with nothing after them. If the words after `tick`, `rx`, `up` or
/// `down` have several faults, the first one is reported.
#[tactic(auto, using(crate::proofs::ForLaws::OnlyLines::lines_say_what_their_words_say))]
pub fn lines_say_what_their_words_say()
    ensures says { (agent : AgentState) (line : List ℕ) → SaysItsWords agent line }
    ensures work { (agent : AgentState) (line : List ℕ) (work : Work) →
        (work_given agent line ≡ Ok work) ↔ IsLineOfWork agent work line }
    ensures faults { (agent : AgentState) (words : List (List ℕ)) (fault : LineFault) →
        RefusesForms agent words fault }
{}
