//! Uses an agent from its opening to its end, through the exported functions alone.
ghost use Rattle.std.specs.Prelude.{◌≡◌, true, false, Some, Ok, slice_get, take, map};
ghost use Rattle.std.specs.Option.{option_map};
ghost use Rattle.lldp_engine.specs.Event.{Setting, frame as frame_event, set as set_event, tick};
ghost use Rattle.lldp_engine.specs.Command.{set};
ghost use Rattle.lldp_engine.specs.Given.{command_given};
ghost use Rattle.lldp_engine.specs.Past.{with_event, opened, agent_of};
ghost use Rattle.lldpa_c.specs.Leaving.{shutdowns};
ghost use Rattle.lldpa_c.specs.Marks.{numbered};
ghost use Rattle.lldpa_c.specs.Opening.{asked};

use crate::agent::{lldpa_close, lldpa_frame};
use crate::command::lldpa_command;
use crate::handle::Held;
use crate::holder::LldpaAgent;
use crate::leaving::lldpa_leave;
use crate::marks::{LldpaMark, LldpaMarks};
use crate::open::lldpa_open;
use crate::options::LldpaOptions;
use crate::settings::lldpa_statistics;
use crate::ticks::{LldpaTicks, lldpa_ticks};
use lldp_engine::{Counters, MOST_PORTS};
use std::alloc::Global;

/// Opens an agent, passes it a frame and a second, and reads the counters of the frame's port.
fn counted(
    alloc: Global,
    options: &LldpaOptions<'_>,
    port: u32,
    octets: &[u8],
    told: &mut Counters,
) -> bool
    ensures { result ≡ true → option_map (λ p. p.counters) (slice_get
        (agent_of (with_event (with_event (opened (asked options.now)) (frame_event port octets.now)) tick)).ports port) ≡ Some told.new }
{
    let mut agent = LldpaAgent {
        held: Held::none(alloc),
        is_open: false,
    };
    if lldpa_open(alloc, options, &mut agent) != 0 {
        return false;
    }
    let mut marks = LldpaMarks {
        items: [LldpaMark { port: 0, mark: 0 }; MOST_PORTS],
        count: 0,
    };
    let mut ticks = LldpaTicks {
        taken: 0,
        aged_out: 0,
    };
    let heard = lldpa_frame(alloc, &mut agent, port, octets, &mut marks);
    let passed = lldpa_ticks(alloc, &mut agent, 1, &mut marks, &mut ticks);
    let read = lldpa_statistics(alloc, &mut agent, port, told);
    lldpa_close(alloc, &mut agent);
    heard == 0 && passed == 0 && read == 0
}

/// Opens an agent, runs a command, and leaves. Returns the answers' success, and writes the frames to send.
fn left_after(
    alloc: Global,
    options: &LldpaOptions<'_>,
    line: &[u8],
    marks: &mut LldpaMarks,
) -> bool
    ensures { result ≡ true → (setting : Setting) → command_given (agent_of (opened (asked options.now))) line.now ≡ Ok (set setting) →
        take marks.new.count marks.new.items
        ≡ map numbered (shutdowns 0 (agent_of (with_event (opened (asked options.now)) (set_event setting))).ports) }
{
    let mut agent = LldpaAgent {
        held: Held::none(alloc),
        is_open: false,
    };
    if lldpa_open(alloc, options, &mut agent) != 0 {
        return false;
    }
    let mut show = 9;
    let obeyed = lldpa_command(alloc, &mut agent, line, &mut show, marks);
    let left = lldpa_leave(alloc, &mut agent, marks);
    lldpa_close(alloc, &mut agent);
    obeyed == 0 && left == 0
}
