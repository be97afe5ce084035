//! Finds out whether an agent stays the same if only seconds pass.
ghost use Rattle.std.specs.Prelude.{◌≡◌, Some, true, slice_get};
ghost use Rattle.std.specs.List.{AllByRecursion};
ghost use Rattle.lldp_engine.specs.AgentState.{PortState, IsPort};
ghost use Rattle.lldpa_c.specs.Still.{may_go, IsStillMachine, IsStill};

use lldp_engine::Agent;
use lldp_transmit::Parts;

/// Returns whether a frame waits for credit, or the port may start.
fn may_go(machine: &Parts) -> bool
    ensures { result ≡ may_go machine.now }
{
    if machine.active {
        machine.waiting
    } else {
        machine.allowed && machine.up
    }
}

/// Returns whether a tick leaves the machine as it is.
fn is_machine_still(machine: &Parts) -> bool
    ensures { result ≡ true → IsStillMachine machine.now }
{
    if machine.credit != machine.credit_max {
        return false;
    }
    machine.wait == 0 && machine.timer == 0 && !may_go(machine)
}

/// Returns whether a tick leaves the port as it is.
fn is_port_still(agent: &Agent, port: u8) -> bool
    requires { IsPort agent.now port }
    ensures { result ≡ true → (p : PortState) → slice_get agent.now.ports port ≡ Some p → IsStill p }
{
    let _ageouts = agent.counters(port).ageouts;
    let table = agent.table(port);
    if table.len() > 0 || table.too_many() || table.gone() > 0 {
        return false;
    }
    is_machine_still(&agent.machine(port).parts())
}

/// Returns whether a tick leaves each port as it is, and so every later tick does.
pub(crate) fn is_still(agent: &Agent) -> bool
    ensures { result ≡ true → AllByRecursion IsStill agent.now.ports }
{
    for port in 0..agent.ports() {
        if !is_port_still(agent, port) {
            return false;
        }
    }
    true
}
