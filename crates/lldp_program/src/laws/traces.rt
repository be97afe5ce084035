//! How a trace is cut into lines, what each line asks for, and what is written for frames.
ghost use Rattle.std.specs.Prelude.{ℕ, List, Option};
ghost use Rattle.lldp_engine.specs.AgentState.{AgentState};
ghost use Rattle.lldp_engine.specs.Past.{Past};
ghost use Rattle.lldp_program.specs.Laws.Asked.{AsksItsItems, TellsEachPort, TellsItem};
ghost use Rattle.lldp_program.specs.Laws.Lines.{CutsLines};
ghost use Rattle.lldp_program.specs.Laws.Stopped.{StopsInOrder};
ghost use Rattle.lldp_program.specs.Trace.Items.{Item};
ghost use Rattle.lldp_program.specs.Trace.Runs.{Failed};

/// An input is cut at each LF and at no other octet. Octets after the last LF are a line too.
pub fn lf_alone_ends_lines()
    ensures { (input : List ℕ) → CutsLines input }
{}

/// `tick N` asks for N ticks, for every N; a frame, a link or a setting asks for one event; a show
/// asks for that show; a refused line asks for the report of its fault.
#[tactic(auto, using(crate::proofs::ForLaws::Asked::asks_its_items))]
pub fn lines_ask_for_their_items()
    ensures { (past : Past) (line : List ℕ) → AsksItsItems past line }
{}

/// At an event, one line is written for each port that sends, with the port's whole name and all
/// octets of its frame. Nothing else is written.
#[tactic(auto, using(crate::proofs::ForLaws::Asked::tells_each_port))]
pub fn each_port_that_sends_is_told()
    ensures { (past : Past) → TellsEachPort past }
{}

/// The text of a show is its lines, the text of a refused line is its fault, and the text of an
/// event is the lines for what was sent. Every text consists of whole lines.
#[tactic(auto, using(crate::proofs::ForLaws::Asked::tells_item))]
pub fn items_are_told_by_their_lines()
    ensures { (past : Past) (item : Item) → TellsItem past item }
{}

/// If output fails, the items up to the one whose output failed were done, and their text was
/// written, except for the end of the last one's.
#[tactic(auto, using(crate::proofs::ForLaws::Stopped::stops_in_order))]
pub fn failed_runs_stop_in_order()
    ensures { (past : Past) (items : List Item) (old new : Option (List ℕ)) (agent : AgentState) →
        Failed past items old new agent → StopsInOrder past items old new agent }
{}
