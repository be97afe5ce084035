//! The frames to send, in a form for C.
ghost use Rattle.std.specs.Prelude.{◌≡◌, map};
ghost use Rattle.lldpa_c.specs.Marks.{TellsMarks};

use crate::machine::mark_number;
use lldp_engine::{MOST_PORTS, Marks};

/// A port, and the number of the mark that says which frame to send.
#[repr(C)]
#[derive(Clone, Copy)]
pub struct LldpaMark {
    pub port: u8,
    pub mark: u8,
}

/// The frames to send: the first `count` items, by ascending port.
#[repr(C)]
#[derive(Clone, Copy)]
pub struct LldpaMarks {
    pub items: [LldpaMark; MOST_PORTS],
    pub count: u8,
}

/// Writes the frames to send into the struct for C.
pub(crate) fn tell(sent: &Marks, told: &mut LldpaMarks)
    ensures { TellsMarks sent.now.items told.new }
{
    let mut items = told.items;
    let all = sent.as_slice();
    for (i, (port, mark)) in all.iter().enumerate() {
        items[i] = LldpaMark {
            port: *port,
            mark: mark_number(*mark),
        };
    }
    *told = LldpaMarks {
        items,
        count: sent.len() as u8,
    };
}
