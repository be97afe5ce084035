//! The handle through which C holds an agent.
ghost use Rattle.std.specs.Prelude.{◌≡◌, true, false, IfSome, IfNone};

use crate::handle::Held;
use lldp_engine::Agent;
use std::alloc::Global;
use std::mem::replace;

#[repr(C)]
#[derive(Drop)]
pub struct LldpaAgent {
    pub(crate) held: Held,
    pub(crate) is_open: bool,
    ghost same: { held.owned ≡ is_open },
}

impl LldpaAgent {
    /// Returns the agent, if there is one, and leaves the handle empty.
    pub(crate) fn take(&mut self, alloc: Global) -> Option<Box<Agent>>
        ensures closed { self.new.is_open ≡ false }
        ensures some { IfSome result (λ agent. (self.old.is_open ≡ true)
            × (agent.value ≡ self.old.held.agent)) }
        ensures none { IfNone result (self.old.is_open ≡ false) }
    {
        let closed = LldpaAgent {
            held: Held::none(alloc),
            is_open: false,
        };
        let LldpaAgent { held, is_open } = replace(self, closed);
        if is_open { Some(held.into_box()) } else { None }
    }

    /// Puts an agent into the handle.
    pub(crate) fn put(&mut self, agent: Box<Agent>)
        ensures is_open { self.new.is_open ≡ true }
        ensures agent { self.new.held.agent ≡ agent.value }
    {
        *self = LldpaAgent {
            held: Held::of(agent),
            is_open: true,
        };
    }
}
