//! One line of a trace, and what it asks for.
ghost use Rattle.std.specs.Prelude.{◌≡◌, ◌≤◌, length, ℕ, List, ◌∷◌, IfOk, IfErr, IfSome, MatchOption, ◌≢◌, ◌<◌, ◌*◌, ◌++◌, take};
ghost use Rattle.std.specs.List.{AllByRecursion, AllPass};
ghost use Rattle.hex.specs.Hex.{decode_of};
ghost use Rattle.lldp_engine.specs.AgentState.{AgentState, IsPort};
ghost use Rattle.lldp_text.specs.Answer.{on_ok};
ghost use Rattle.lldp_program.specs.Faults.FaultNumber.{number_of_line_fault};
ghost use Rattle.lldp_program.specs.Trace.Forms.{fault_text, is_skipped, tick_form, frame_form, link_form, work_given};
ghost use Rattle.lldp_program.specs.Trace.Work.{frame, work_of, AllowsWork};
ghost use Rattle.lldp_program.specs.Code.Plain.{is_plain_octet, EndsAt};
ghost use Rattle.lldp_program.specs.Ranges.{most_of_line};
ghost use Rattle.std.specs.Result.{result_map_both};
ghost use Rattle.lldp_program.specs.declared.line.LineFault.TheVariants.{Hex};
ghost use Rattle.lldp_program.specs.declared.line.TheConstants.{FRAME_ROOM};
ghost use Rattle.lldp_text.specs.declared.writing.TheConstants.{LINE_ROOM};

use lldp_engine::{
    Agent, Command, CommandFault, Words, decode_digits, end_words, next_port, next_word, number,
    split,
};
use lldp_text::decode_line;

/// The most octets that a line may have, without its LF.
pub const LONGEST: usize = 4096;

/// The most octets of a frame that a line can spell: each has two digits.
pub const FRAME_ROOM: usize = LONGEST / 2;

/// The most ticks that a line asks for.
pub const MOST_TICKS: u16 = 65535;

/// Why a line is refused.
#[derive(Clone, Copy, Debug, PartialEq, Eq)]
pub enum LineFault {
    /// The line has more than 4,096 octets.
    TooLong,
    /// A frame is not written in pairs of hexadecimal digits.
    Hex,
    /// Any other fault.
    Command(CommandFault),
}

/// What a line asks for.
#[derive(Clone, Copy)]
pub enum Work<'l> {
    /// Nothing.
    Skip,
    /// This many ticks, at least one.
    Ticks(u16),
    /// A frame was received on a port.
    Frame { port: u8, octets: &'l [u8] },
    /// The link of a port came up, or went down.
    Link { port: u8, up: bool },
    /// A command.
    Command(Command<'l>),
}

impl From<CommandFault> for LineFault {
    ghost use Rattle.lldp_program.specs.declared.line.LineFault.TheVariants as refused;

    ghost from_gives = { λ fault line_fault. line_fault ≡ refused.Command fault };

    fn from(fault: CommandFault) -> LineFault {
        LineFault::Command(fault)
    }
}

impl LineFault {
    /// Returns the number of the fault, 1 to 3.
    pub fn number(self) -> u8
        ensures { result ≡ number_of_line_fault self }
    {
        match self {
            LineFault::TooLong => 1,
            LineFault::Hex => 2,
            LineFault::Command(_) => 3,
        }
    }

    /// Returns the line that reports the fault, without LF.
    pub fn text(self) -> &'static [u8]
        ensures text { result.now ≡ fault_text self }
        ensures short { length result.now < LINE_ROOM }
    {
        match self {
            LineFault::TooLong => b"error: line too long",
            LineFault::Hex => b"error: bad hexadecimal",
            LineFault::Command(fault) => fault.text(),
        }
    }
}

/// Returns true if a line has only spaces and tabs, or `#` as the first other octet.
fn is_skipped_line(line: &[u8]) -> bool
    ensures { result ≡ is_skipped line.now }
{
    for octet in line {
        if *octet != b' ' && *octet != b'\t' {
            return *octet == b'#';
        }
    }
    true
}

/// Reads the words after `tick`: none, or a number of ticks.
#[tactic(auto, unfolding(crate::specs::Trace::Forms::tick_form))]
fn read_tick<'l>(mut words: Words<'_>) -> Result<Work<'l>, LineFault>
    ensures read { on_ok work_of result ≡ tick_form words.entry }
    ensures allowed { (agent : AgentState) →
        IfOk result (λ work. AllowsWork agent (work_of work)) }
{
    let Some(word) = words.next() else {
        return Ok(Work::Ticks(1));
    };
    let ticks = number(word, 1, MOST_TICKS)?;
    end_words(words)?;
    Ok(Work::Ticks(ticks))
}

/// Decodes hexadecimal digits into the front of `room`, and returns the octets.
fn decode<'l>(digits: &[u8], room: &'l mut [u8]) -> Result<&'l [u8], LineFault>
    requires { length digits.now ≤ 2 * length room.old }
    ensures octets { IfOk result (λ octets. result_map_both (λ octets. octets) (λ fault. Hex)
        (decode_of digits.now) ≡ Ok octets.now) }
    ensures fault { IfErr result (λ fault. result_map_both (λ octets. octets) (λ fault. Hex)
        (decode_of digits.now) ≡ Err fault) }
{
    let octets = &mut room[..digits.len() / 2];
    if digits.len() % 2 == 0 && decode_digits(digits, octets) {
        return Ok(octets);
    }
    // There are fewer than 32 digits, or an odd number of them, or a digit is bad.
    match hex::decode_to_slice(digits, octets) {
        Ok(()) => Ok(octets),
        Err(_) => Err(LineFault::Hex),
    }
}

/// Reads the words after `rx`: a port and a frame. The octets of the frame are written into `room`.
#[tactic(auto, unfolding(crate::specs::Trace::Forms::frame_form))]
fn read_frame<'l>(
    agent: &Agent,
    mut words: Words<'_>,
    room: &'l mut [u8; FRAME_ROOM],
) -> Result<Work<'l>, LineFault>
    requires { AllByRecursion (λ word. length word ≤ most_of_line) words }
    ensures read { on_ok work_of result ≡ frame_form agent.now words.entry }
    ensures allowed { IfOk result (λ work. AllowsWork agent.now (work_of work)) }
{
    let port = next_port(agent, &mut words)?;
    let digits = next_word(&mut words)?;
    let octets = decode(digits, room)?;
    end_words(words)?;
    Ok(Work::Frame { port, octets })
}

/// Reads the word after `up` or `down`: a port.
#[tactic(auto, unfolding(crate::specs::Trace::Forms::link_form))]
fn read_link<'l>(agent: &Agent, mut words: Words<'_>, up: bool) -> Result<Work<'l>, LineFault>
    ensures read { on_ok work_of result ≡ link_form agent.now up words.entry }
    ensures allowed { IfOk result (λ work. AllowsWork agent.now (work_of work)) }
{
    let port = next_port(agent, &mut words)?;
    end_words(words)?;
    Ok(Work::Link { port, up })
}

/// Returns the text after `front`, or None if the text does not begin with `front`.
fn behind<'l>(text: &'l [u8], front: &[u8]) -> Option<&'l [u8]>
    ensures { MatchOption result
        ((rest : List ℕ) → text.now ≢ front.now ++ rest)
        (λ rest. text.now ≡ front.now ++ rest.now) }
{
    text.strip_prefix(front)
}

/// Returns whether an octet is neither a space, a quote nor a control character.
fn is_plain(octet: u8) -> bool
    ensures { result ≡ is_plain_octet octet }
{
    octet > b' ' && octet != b'"'
}

/// Returns the word at the front of a text, and the text after the space behind it. Returns None if
/// there is no such word.
fn plain_word(text: &[u8]) -> Option<(&[u8], &[u8])>
    ensures whole { IfSome result (λ x. text.now ≡ x.0.now ++ 32 ∷ x.1.now) }
    ensures plain { IfSome result (λ x. AllPass is_plain_octet x.0.now) }
    ensures some { IfSome result (λ x. 0 < length x.0.now) }
{
    let end = text.iter().position(|c| !is_plain(*c))?;
    if end == 0 || text[end] != b' ' {
        return None;
    }
    Some((&text[..end], &text[end + 1..]))
}

/// A line `rx PORT HEX` at the front of a text: its port, how many octets its frame has, and where
/// the LF is that ends the line.
#[derive(Clone, Copy)]
pub struct FrameLine {
    pub port: u8,
    pub count: usize,
    pub end: usize,
}

/// Reads the line at the front of a text if it is `rx PORT HEX` with one space between words and
/// no quotes, as most lines are. Writes the octets of the frame into `room`. Returns None for other
/// lines, and if fewer than 32 octets follow; such lines are read word by word.
pub fn frame_line(agent: &Agent, text: &[u8], room: &mut [u8; FRAME_ROOM]) -> Option<FrameLine>
    ensures ends { IfSome result (λ x. EndsAt text.now x.end) }
    ensures reads { IfSome result (λ x. work_given agent.now (take x.end text.now)
        ≡ Ok (frame x.port (take x.count room.new))) }
    ensures room { IfSome result (λ x. x.count ≤ FRAME_ROOM) }
    ensures exists { IfSome result (λ x. IsPort agent.now x.port) }
{
    let rest = behind(text, b"rx ")?;
    let (name, digits) = plain_word(rest)?;
    let port = agent.find_port(name)?;
    let count = decode_line(digits, &mut room[..])?;
    let end = 4 + name.len() + 2 * count;
    if count == 0 || end > LONGEST {
        return None;
    }
    Some(FrameLine { port, count, end })
}

/// Reads what a line asks of the agent. `line` is without its LF. Returns the work, whose events
/// the agent accepts, or the first fault of the line. The octets of a frame are in `room`; after
/// any other line the contents of `room` are not specified.
#[tactic(auto, unfolding(crate::specs::Trace::Forms::work_given, crate::specs::Trace::Forms::form_of))]
pub fn read_line<'l>(
    agent: &Agent,
    line: &'l [u8],
    room: &'l mut [u8; FRAME_ROOM],
) -> Result<Work<'l>, LineFault>
    ensures read { on_ok work_of result ≡ work_given agent.now line.now }
    ensures allowed { IfOk result (λ work. AllowsWork agent.now (work_of work)) }
{
    if line.len() > LONGEST {
        return Err(LineFault::TooLong);
    }
    if is_skipped_line(line) {
        return Ok(Work::Skip);
    }
    let mut words = split(line)?;
    let word = next_word(&mut words)?;
    if word == b"tick".as_slice() {
        read_tick(words)
    } else if word == b"rx".as_slice() {
        read_frame(agent, words, room)
    } else if word == b"up".as_slice() {
        read_link(agent, words, true)
    } else if word == b"down".as_slice() {
        read_link(agent, words, false)
    } else {
        Ok(Work::Command(agent.read_words(word, words)?))
    }
}
