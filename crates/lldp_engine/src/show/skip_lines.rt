//! A sink that skips the first lines of a show.
ghost use Rattle.std.specs.Prelude.{◌≡◌};
ghost use Rattle.lldp_engine.specs.Code.Skipping.{TakesLater};

use crate::show::line::LineSink;
use lldp_text::Writer;

/// Skips the next `before` lines. A borrowed sink takes the lines after them.
#[derive(Drop)]
pub(crate) struct SkipLines<'a, S> {
    sink: &'a mut S,
    before: u32,
}

impl<'a, S> SkipLines<'a, S> {
    pub(crate) fn new(sink: &'a mut S, before: u32) -> Self
        ensures sink { result.sink.now ≡ sink.old }
        ensures same { result.sink.ghost_name ≡ sink.entry.ghost_name }
        ensures before { result.before ≡ before }
    {
        SkipLines { sink, before }
    }
}

impl<S: LineSink> LineSink for SkipLines<'_, S> {
    ghost takes = { TakesLater S.takes };

    fn begin_line(&mut self) -> Option<&mut Writer> {
        if self.before > 0 {
            self.before -= 1;
            return None;
        }
        self.sink.begin_line()
    }

    fn is_done(&self) -> bool {
        self.before == 0 && self.sink.is_done()
    }
}
