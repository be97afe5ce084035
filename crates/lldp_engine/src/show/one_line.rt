//! A sink that keeps one line.
ghost use Rattle.std.specs.Prelude.{◌≡◌, [], false};
ghost use Rattle.std.specs.Option.{option_map};
ghost use Rattle.lldp_engine.specs.Code.OneLineState.{KeepsOne, line_kept};

use crate::show::line::LineSink;
use lldp_text::Writer;

/// A sink that keeps one line. It holds how many lines are still to skip, whether the wanted line
/// was written, and that line with its line feed.
#[derive(Drop)]
pub(crate) struct OneLine {
    before: u32,
    came: bool,
    line: Writer,
}

impl OneLine {
    /// Returns a sink that has kept no line yet.
    pub(crate) fn new() -> OneLine {
        OneLine {
            before: 0,
            came: false,
            line: Writer::new(),
        }
    }

    /// Empties the sink. It will then keep the line after the next `before` lines.
    pub(crate) fn want(&mut self, before: u32)
        ensures { self.new ≡ record { before = before; came = false; line = [] } }
    {
        self.before = before;
        self.came = false;
        self.line.clear();
    }

    /// Returns the wanted line without its line feed, if it was written.
    pub(crate) fn line(&self) -> Option<&[u8]>
        ensures { option_map (λ line. line.now) result ≡ line_kept self.now }
    {
        if !self.came {
            return None;
        }
        let line = self.line.as_slice();
        Some(&line[..line.len().saturating_sub(1)])
    }
}

impl LineSink for OneLine {
    ghost takes = { KeepsOne };

    fn begin_line(&mut self) -> Option<&mut Writer> {
        if self.came {
            return None;
        }
        if self.before > 0 {
            self.before -= 1;
            return None;
        }
        self.came = true;
        self.line.clear();
        Some(&mut self.line)
    }

    fn is_done(&self) -> bool {
        self.came
    }
}
