//! The buffer that a trace is read into. It holds the beginning of an unfinished line at its front.
ghost use Rattle.std.specs.Prelude.{◌≡◌, ◌<◌, ◌≤◌, ◌+◌, ◌-◌, length, take, drop, IfOk, min};
ghost use Rattle.lldp_program.specs.Devices.Counts.{one_more, failures_after, ends_after, ReadsMore};

use crate::device::{DeviceFault, Source};
use crate::line::LONGEST;

/// Reads more octets into the buffer, after the first `held` ones, and returns how many.
pub fn read_more<S: Source>(
    source: &mut S,
    buffer: &mut [u8],
    held: usize,
) -> Result<usize, DeviceFault>
    requires { held < length buffer.old }
    ensures kept { take held buffer.new ≡ take held buffer.old }
    ensures fits { IfOk result (λ n. held + n ≤ length buffer.new) }
    ensures octets { ReadsMore (S.to_come source.old) (S.to_come source.new)
        (drop held buffer.new) result }
    ensures calls { S.calls source.new ≡ one_more (S.calls source.old) }
    ensures failures { S.failures source.new ≡ failures_after (S.failures source.old) result }
    ensures ends { S.ends source.new ≡ ends_after (S.ends source.old) result }
    ensures place { S.place source.new ≡ S.place source.old }
{
    source.read(&mut buffer[held..])
}

/// Moves the octets from `start` to `end` to the front of the buffer, at most 4,097 of them, and
/// returns how many. 4,097 octets of a line are enough to see that the line is too long.
pub fn hold(buffer: &mut [u8], start: usize, end: usize) -> usize
    requires order { start ≤ end }
    requires within { end ≤ length buffer.old }
    ensures few { result ≤ 4097 }
    ensures held { take result buffer.new ≡ take 4097 (drop start (take end buffer.old)) }
{
    let held = (end - start).min(LONGEST + 1);
    if start > 0 {
        buffer.copy_within(start..start + held, 0);
    }
    held
}
