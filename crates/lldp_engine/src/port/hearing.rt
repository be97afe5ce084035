//! What a port does with received octets (IEEE 802.1AB-2009, 9.2.7.7).
ghost use Rattle.std.specs.Prelude.{◌≡◌, ◌≤◌, length, Some};
ghost use Rattle.lldp_pdu.specs.Fault.{fault_of};
ghost use Rattle.lldp_table.specs.Code.Steps.{learn_answer, after_learn};
ghost use Rattle.lldp_table.specs.Outcomes.{store_outcome};
ghost use Rattle.lldp_engine.specs.Heard.{heard_of, heard_by};
ghost use Rattle.lldp_engine.specs.Port.Effects.{cause_of_answer, cause_of_heard};
ghost use Rattle.lldp_engine.specs.Told.{told_of, stored};
ghost use Rattle.lldp_engine.specs.Code.Counting.{with_tlvs, with_answer};
ghost use Rattle.lldp_engine.specs.Code.PortStep.{hears_if};
ghost use Rattle.lldp_engine.specs.Code.Telling.{pdu_tells, frame_tells};
ghost use Rattle.lldp_pdu.specs.Range.{most_octets};

use super::Port;
use crate::agent::told::Told;
use lldp_pdu::{Examined, Info, examine, frame_pdu};
use lldp_table::Learned;
use lldp_transmit::Cause;
use std::alloc::Allocator;

impl<A: Allocator> Port<A> {
    /// Handles received octets, and writes what they tell. Returns what they mean to the transmit
    /// machine.
    pub(crate) fn receive<'a>(&mut self, octets: &'a [u8], told: &mut Told<'a>) -> Cause
        ensures after { self.new
            ≡ hears_if self.old (heard_by self.old.status self.old.machine.up octets.now) }
        ensures cause { result
            ≡ cause_of_heard (learn_answer self.old.table)
            (heard_by self.old.status self.old.machine.up octets.now) }
        ensures told { told_of told.new ≡ frame_tells self.old octets.now }
    {
        if !self.status.receives() {
            *told = Told::Deaf;
            return Cause::Nothing;
        }
        if !self.transmit.is_up() {
            *told = Told::Deaf;
            return Cause::Nothing;
        }
        match frame_pdu(octets) {
            Some(pdu) => self.hear(pdu, told),
            None => {
                *told = Told::NotLldp;
                Cause::Nothing
            }
        }
    }

    /// Handles the LLDPDU of an LLDP frame, and writes what it tells. Returns what it means to the
    /// port's transmit machine.
    fn hear<'a>(&mut self, pdu: &'a [u8], told: &mut Told<'a>) -> Cause
        requires { length pdu.now ≤ most_octets }
        ensures after { self.new ≡ hears_if self.old (Some (heard_of pdu.now)) }
        ensures cause { result
            ≡ cause_of_heard (learn_answer self.old.table) (Some (heard_of pdu.now)) }
        ensures told { told_of told.new ≡ pdu_tells self.old.table pdu.now (fault_of pdu.now) }
    {
        self.counters.count_received();
        match examine(pdu) {
            Err(fault) => {
                self.counters.count_refused();
                *told = Told::Refused(fault);
                Cause::Nothing
            }
            Ok(Examined::Shutdown(name)) => {
                let held = self.table.forget(&name);
                *told = Told::Left { name, held };
                Cause::Nothing
            }
            Ok(Examined::Info(info)) => self.learn(&info, told),
        }
    }

    /// Stores an LLDPDU that has no fault and a TTL above 0, if there is room, and counts it. Writes
    /// what it tells.
    fn learn<'a>(&mut self, info: &Info<'a>, told: &mut Told<'a>) -> Cause
        requires { length info.now.octets ≤ most_octets }
        ensures after { self.new ≡ record {
          name = self.old.name;
          status = self.old.status;
          table = after_learn self.old.table info.now.msap info.now.ttl info.now.octets;
          machine = self.old.machine;
          counters = with_answer
              (with_tlvs self.old.counters info.now.discarded info.now.unrecognized)
              (learn_answer self.old.table info.now.msap);
        } }
        ensures cause { result ≡ cause_of_answer (learn_answer self.old.table info.now.msap) }
        ensures told { told_of told.new ≡ stored info.now.msap
            (store_outcome self.old.table info.now.msap info.now.octets) }
    {
        let outcome = self.table.store(info);
        let discarded = info.discarded() as u32;
        let unrecognized = info.unrecognized() as u32;
        self.counters.count_tlvs(discarded, unrecognized);
        let answer = outcome.learned();
        self.counters.count_answer(answer);
        *told = Told::Stored {
            name: info.msap(),
            outcome,
        };
        match answer {
            Learned::New => Cause::Neighbor,
            Learned::Refreshed | Learned::Dropped => Cause::Nothing,
        }
    }
}
