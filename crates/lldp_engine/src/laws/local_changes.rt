//! Laws of what an event means to the transmit machine of a port.
ghost use Rattle.std.specs.Prelude.{◌≡◌, ◌≢◌, ℕ, ◌+◌, Bool, List, Some, length};
ghost use Rattle.lldp_table.specs.Events.{Neighbor as Held};
ghost use Rattle.lldp_transmit.specs.declared.event.Cause.TheVariants.{Tick, Change, Neighbor, Nothing};
ghost use Rattle.lldp_engine.specs.declared.port.status.Status.{Status};
ghost use Rattle.lldp_engine.specs.Event.{tick, frame, link, set, hostname, description, interval, hold, limit, status, update};
ghost use Rattle.lldp_engine.specs.Past.{Past, with_event};
ghost use Rattle.lldp_engine.specs.Laws.PortAt.{neighbors_at};
ghost use Rattle.lldp_engine.specs.Laws.CauseOf.{IsFor};

/// A tick means a tick to the transmit machine of each port. Each command except a status command
/// means a local change to each of these machines.
#[tactic(auto, using(crate::proofs::ForLaws::Causes::is_for))]
pub fn settings_are_local_changes()
    ensures tick { (past : Past) (i : ℕ) → IsFor past tick i Tick }
    ensures hostname { (past : Past) (i : ℕ) (text : List ℕ) →
        IsFor past (set (hostname text)) i Change }
    ensures description { (past : Past) (i : ℕ) (text : List ℕ) →
        IsFor past (set (description text)) i Change }
    ensures interval { (past : Past) (i seconds : ℕ) →
        IsFor past (set (interval seconds)) i Change }
    ensures hold { (past : Past) (i times : ℕ) → IsFor past (set (hold times)) i Change }
    ensures limit { (past : Past) (i neighbors : ℕ) → IsFor past (set (limit neighbors)) i Change }
    ensures update { (past : Past) (i : ℕ) → IsFor past (set update) i Change }
{}

/// Status commands, link events and frames are not local changes.
#[tactic(auto, using(crate::proofs::ForLaws::Causes::statuses_links_and_frames_are_no_changes))]
pub fn statuses_links_and_frames_are_no_changes()
    ensures status { (past : Past) (i port : ℕ) (given : Status) →
        ¬ (IsFor past (set (status port given)) i Change) }
    ensures link { (past : Past) (i port : ℕ) (up : Bool) →
        ¬ (IsFor past (link port up) i Change) }
    ensures frame { (past : Past) (i port : ℕ) (octets : List ℕ) →
        ¬ (IsFor past (frame port octets) i Change) }
{}

/// A frame means a new neighbor exactly if its port then holds one more neighbor. Every other
/// frame, such as a refresh or one that is dropped, means nothing to the transmit machine.
#[tactic(auto, using(crate::proofs::ForLaws::Causes::new_neighbors_are_one_more))]
pub fn new_neighbors_are_one_more()
    ensures new { (past : Past) (i : ℕ) (octets : List ℕ) (before after : List Held) →
        neighbors_at past i ≡ Some before →
        neighbors_at (with_event past (frame i octets)) i ≡ Some after →
        length after ≡ 1 + length before → IsFor past (frame i octets) i Neighbor }
    ensures other { (past : Past) (i : ℕ) (octets : List ℕ) (before after : List Held) →
        neighbors_at past i ≡ Some before →
        neighbors_at (with_event past (frame i octets)) i ≡ Some after →
        length after ≢ 1 + length before → IsFor past (frame i octets) i Nothing }
{}
