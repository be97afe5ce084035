//! Opens and closes agents through the exported functions.
ghost use Rattle.std.specs.Prelude.{◌≡◌, ◌+◌, ◌≤◌, true, false, Some, None, take, map, ◌⊎◌};
ghost use Rattle.std.specs.List.{All};
ghost use Rattle.std.specs.Str.{IsUtf8};
ghost use Rattle.lldp_engine.specs.Options.{fault_of};
ghost use Rattle.lldp_engine.specs.Past.{opened};
ghost use Rattle.lldp_engine.specs.Standing.{Stands};
ghost use Rattle.lldp_engine.specs.declared.agent.open_fault.OpenFault.{OpenFault};
ghost use Rattle.lldp_engine.specs.declared.agent.options.Role.TheVariants.{Station};
ghost use Rattle.lldpa_c.specs.Faults.{refusal_number};
ghost use Rattle.lldpa_c.specs.Opening.{asked, IsRead};
ghost use Rattle.lldp_engine.specs.Ranges.{most_ports};
ghost use Rattle.lldp_table.specs.Ranges.{most_neighbors};
ghost use Rattle.lldp_transmit.specs.Ranges.{most_credit_max, most_fast_init, most_reinit};

use crate::agent::lldpa_close;
use crate::holder::LldpaAgent;
use crate::open::lldpa_open;
use crate::options::LldpaOptions;
use std::alloc::Global;

/// Opens an agent.
fn opens(alloc: Global, options: &LldpaOptions<'_>, agent: &mut LldpaAgent) -> u8
    ensures value { result ≡ 0 → (agent.new.is_open ≡ true) × Stands (opened (asked options.now)) agent.new.held.agent
        × (fault_of (asked options.now) ≡ None) × IsRead options.now }
    ensures again { agent.old.is_open ≡ true → (result ≡ 104) × (agent.new.is_open ≡ true) × (agent.new.held.agent ≡ agent.old.held.agent) }
    ensures range { agent.old.is_open ≡ false → ¬ (IsRead options.now) → (result ≡ 100) × (agent.new.is_open ≡ false) }
    ensures fault { agent.old.is_open ≡ false → IsRead options.now → (fault : OpenFault) → fault_of (asked options.now) ≡ Some fault →
        (result ≡ refusal_number fault) × (agent.new.is_open ≡ false) }
    ensures others { agent.old.is_open ≡ false → IsRead options.now → fault_of (asked options.now) ≡ None → (result ≡ 0) ⊎ (result ≡ 21) }
    ensures closed { agent.old.is_open ≡ false → ¬ (result ≡ 0) → agent.new.is_open ≡ false }
{
    lldpa_open(alloc, options, agent)
}

/// Opens a station that has an address, with options in their ranges.
fn open_station(alloc: Global, options: &LldpaOptions<'_>, agent: &mut LldpaAgent) -> u8
    requires closed { agent.old.is_open ≡ false }
    requires role { options.now.role ≡ 0 }
    requires managed { options.now.managed ≡ true }
    requires names { All (λ text. IsUtf8 text.octets.now) (take (most_ports + 1) options.now.ports.now) }
    requires hostname { IsUtf8 options.now.hostname.octets.now }
    requires neighbors { (1 ≤ options.now.max_neighbors) × (options.now.max_neighbors ≤ most_neighbors) }
    requires credit { (1 ≤ options.now.credit_max) × (options.now.credit_max ≤ most_credit_max) }
    requires fast { (1 ≤ options.now.fast_init) × (options.now.fast_init ≤ most_fast_init) }
    requires wait { (1 ≤ options.now.reinit) × (options.now.reinit ≤ most_reinit) }
    ensures value { result ≡ 0 → (agent.new.is_open ≡ true) × Stands (opened (record {
      names = map (λ text. text.octets.now) options.now.ports.now;
      mac = options.now.mac;
      hostname = options.now.hostname.octets.now;
      management = Some options.now.management;
      role = Station;
      max_neighbors = options.now.max_neighbors;
      credit_max = options.now.credit_max;
      fast_init = options.now.fast_init;
      reinit = options.now.reinit;
      receive_only = options.now.receive_only;
    })) agent.new.held.agent }
    ensures fault { (fault : OpenFault) → fault_of (asked options.now) ≡ Some fault →
        (result ≡ refusal_number fault) × (agent.new.is_open ≡ false) }
    ensures opens { fault_of (asked options.now) ≡ None → (result ≡ 0) ⊎ (result ≡ 21) }
{
    lldpa_open(alloc, options, agent)
}

/// Closes an agent.
fn close(alloc: Global, agent: &mut LldpaAgent)
    ensures { agent.new.is_open ≡ false }
{
    lldpa_close(alloc, agent);
}
