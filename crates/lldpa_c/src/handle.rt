//! A pointer that owns an agent or nothing, in a form that C can store.
ghost use Rattle.std.specs.Prelude.{◌≡◌, Bool, true, false};
ghost use Rattle.lldp_engine.specs.AgentState.{AgentState};
ghost use Rattle.lldpa_c.specs.Handle.{held_owns, agent_coded};

use lldp_engine::Agent;
use std::alloc::Global;
use std::marker::Model;

/// An untyped pointer that owns an agent on the heap if the ghost field `owned` is true, and owns
/// nothing otherwise. Dropping this value does not free the agent.
#[repr(C)]
#[derive(Drop)]
pub struct Held {
    ptr: *mut u8,
    alloc: Global,
    pub ghost owned: { Bool },
    pub ghost agent: { AgentState } by { agent_coded },
}

impl Model for Held {
    ghost also_owns = { λ h. held_owns h.owned h.alloc h.ptr h.agent };
}

fn nowhere() -> *mut u8 {
    std::ptr::null_mut()
}

impl Held {
    fn closed(ptr: *mut u8, alloc: Global) -> Held
        ensures { result.owned ≡ false }
    {
        Held { ptr, alloc }
    }

    /// Returns a value that holds no agent.
    pub fn none(alloc: Global) -> Held
        ensures { result.owned ≡ false }
    {
        Held::closed(nowhere(), alloc)
    }

    /// Returns a value that holds the agent of this box.
    pub fn of(agent: Box<Agent>) -> Held
        ensures owned { result.owned ≡ true }
        ensures agent { result.agent ≡ agent.value }
    {
        let (ptr, alloc) = Box::into_raw_with_allocator(agent);
        let ptr = ptr as *mut u8;
        Held { ptr, alloc }
    }

    /// Returns the agent in its box.
    pub fn into_box(self) -> Box<Agent>
        requires { self.owned ≡ true }
        ensures { result.value ≡ self.agent }
    {
        let Held { ptr, alloc } = self;
        let ptr = ptr as *mut Agent;
        unsafe { Box::from_raw(alloc, ptr) }
    }
}
