//! Writes the frames that a port sends.
ghost use Rattle.std.specs.Prelude.{◌≡◌, ◌<◌, ◌≤◌, length, take, drop, Some, IfSome};
ghost use Rattle.lldp_transmit.specs.declared.event.Mark.{Mark};
ghost use Rattle.lldp_engine.specs.AgentState.{IsPort};
ghost use Rattle.lldp_engine.specs.Frames.{IsSent};
ghost use Rattle.lldp_engine.specs.AgentState.{name_of};
ghost use Rattle.lldp_engine.specs.Frames.{frame_of};
ghost use Rattle.lldpa_c.specs.Place.{KeepsRest};
ghost use Rattle.lldpa_c.specs.Answer.{answer_of};
ghost use Rattle.lldpa_c.specs.Frame.{mark_numbered, frame_checks, Writes, Keeps};

use crate::answer::{NO_PORT, NOT_OPEN, OUT_OF_RANGE};
use crate::giving::give;
use crate::holder::LldpaAgent;
use arrayvec::ArrayVec;
use lldp_engine::{Agent, Mark};
use std::alloc::Global;

/// Returns the mark with this number, or None if the number does not ask for a frame.
fn mark_numbered(number: u32) -> Option<Mark>
    ensures value { result ≡ mark_numbered number }
    ensures sent { IfSome result IsSent }
{
    match number {
        1 => Some(Mark::Ordinary),
        2 => Some(Mark::Shutdown),
        _ => None,
    }
}

/// Fills the start of the caller's buffer with the frame that a port sends.
// Not inlined: this function's stack frame exceeds a page. When it was inlined, LLVM moved a branch
// of the caller before the loop that probes pages. The loop overwrote a register of that branch.
#[inline(never)]
fn write(agent: &Agent, port: u32, mark: Mark, room: &mut [u8], written: &mut usize) -> u8
    requires { IsSent mark }
    ensures written { result ≡ 0 → Writes agent.now port mark (take written.new room.new) }
    ensures within { result ≡ 0 → written.new ≤ length room.new }
    ensures rest { result ≡ 0 → drop written.new room.new ≡ drop written.new room.old }
    ensures answers { IsPort agent.now port →
        length (frame_of agent.now.configuration (name_of agent.now port) mark) ≤ length room.old →
        result ≡ 0 }
    ensures room { IsPort agent.now port → length room.old
        < length (frame_of agent.now.configuration (name_of agent.now port) mark) → result ≡ 101 }
    ensures none { ¬ (IsPort agent.now port) → result ≡ 103 }
    ensures refused { ¬ (result ≡ 0) → (room.new ≡ room.old) × (written.new ≡ written.old) }
{
    if port >= u32::from(agent.ports()) {
        return NO_PORT;
    }
    let mut frame = ArrayVec::new();
    agent.write_frame(port as u8, mark, &mut frame);
    give(frame.as_slice(), room, written)
}

/// Writes the frame that a mark asks for on a port, with the current settings.
#[unsafe(no_mangle)]
pub extern "C" fn lldpa_frame_of(
    alloc: Global,
    agent: &mut LldpaAgent,
    port: u32,
    mark: u32,
    room: &mut [u8],
    written: &mut usize,
) -> u8
    ensures written { result ≡ 0 → (m : Mark) × (mark_numbered mark ≡ Some m)
        × Writes agent.old.held.agent port m (take written.new room.new) }
    ensures rest { result ≡ 0 → KeepsRest written.new room.old room.new }
    ensures answer { result ≡ answer_of (frame_checks agent.old port mark (length room.old)) }
    ensures kept { Keeps agent.old agent.new }
    ensures refused { ¬ (result ≡ 0) → (room.new ≡ room.old) × (written.new ≡ written.old) }
{
    let Some(mark) = mark_numbered(mark) else {
        return OUT_OF_RANGE;
    };
    let Some(held) = agent.take(alloc) else {
        return NOT_OPEN;
    };
    let answer = write(&held, port, mark, room, written);
    agent.put(held);
    answer
}
