//! Passes frames and link events to an agent, and closes agents.
ghost use Rattle.std.specs.Prelude.{◌≡◌, false};
ghost use Rattle.lldp_engine.specs.Event.{event_of, frame, link};
ghost use Rattle.lldpa_c.specs.Agent.{Answers, happening_on};
ghost use Rattle.lldp_engine.specs.Told.{Tells};
ghost use Rattle.lldp_engine.specs.Code.Telling.{agent_told};
ghost use Rattle.lldpa_c.specs.News.{Reports};

use crate::answer::{NO_PORT, NOT_OPEN, OK};
use crate::holder::LldpaAgent;
use crate::marks::{LldpaMarks, tell};
use crate::news::{LldpaNews, news_of};
use lldp_engine::{Event, Marks};
use std::alloc::Global;

/// A frame that a port received, or a link that came up (true) or went down.
#[derive(Clone, Copy)]
enum Happening<'a> {
    Frame(&'a [u8]),
    Link(bool),
}

impl<'a> Happening<'a> {
    /// Returns the event for this frame or link change on a port.
    fn on(self, port: u8) -> Event<'a>
        ensures { event_of result ≡ happening_on port self.entry }
    {
        match self {
            Happening::Frame(octets) => Event::Frame { port, octets },
            Happening::Link(up) => Event::Link { port, up },
        }
    }
}

/// Applies a frame or a link change to a port, and writes which frames to send.
fn take_on(
    alloc: Global,
    handle: &mut LldpaAgent,
    port: u32,
    happening: Happening<'_>,
    marks: &mut LldpaMarks,
) -> u8
    ensures { Answers handle.old (happening_on port happening.entry) marks.old result handle.new marks.new }
{
    let Some(mut agent) = handle.take(alloc) else {
        return NOT_OPEN;
    };
    if port >= u32::from(agent.ports()) {
        handle.put(agent);
        return NO_PORT;
    }
    let mut sent = Marks::new();
    agent.step_told(happening.on(port as u8), &mut sent);
    handle.put(agent);
    tell(&sent, marks);
    OK
}

/// Passes octets that a port received to the agent, and writes which frames to send.
#[unsafe(no_mangle)]
pub extern "C" fn lldpa_frame(
    alloc: Global,
    agent: &mut LldpaAgent,
    port: u32,
    octets: &[u8],
    marks: &mut LldpaMarks,
) -> u8
    ensures answer { Answers agent.old (frame port octets.now) marks.old result agent.new marks.new }
{
    take_on(alloc, agent, port, Happening::Frame(octets), marks)
}

/// Does the same as `lldpa_frame`, and also writes what the frame did.
#[unsafe(no_mangle)]
pub extern "C" fn lldpa_frame_news(
    alloc: Global,
    agent: &mut LldpaAgent,
    port: u32,
    octets: &[u8],
    marks: &mut LldpaMarks,
    news: &mut LldpaNews,
) -> u8
    ensures answer { Answers agent.old (frame port octets.now) marks.old result agent.new marks.new }
    ensures news { result ≡ 0 → Reports (agent_told (frame port octets.now) agent.old.held.agent)
        octets.now news.new }
    ensures step { result ≡ 0 → Tells (frame port octets.now) agent.old.held.agent agent.new.held.agent
        (agent_told (frame port octets.now) agent.old.held.agent) }
    ensures refused { ¬ (result ≡ 0) → news.new ≡ news.old }
{
    let Some(mut held) = agent.take(alloc) else {
        return NOT_OPEN;
    };
    if port >= u32::from(held.ports()) {
        agent.put(held);
        return NO_PORT;
    }
    let port = port as u8;
    let mut sent = Marks::new();
    let told = held.step_told(Event::Frame { port, octets }, &mut sent);
    agent.put(held);
    tell(&sent, marks);
    *news = news_of(&told);
    OK
}

/// Reports to the agent that a link came up or went down. Writes which frames to send.
#[unsafe(no_mangle)]
pub extern "C" fn lldpa_link(
    alloc: Global,
    agent: &mut LldpaAgent,
    port: u32,
    up: bool,
    marks: &mut LldpaMarks,
) -> u8
    ensures answer { Answers agent.old (link port up) marks.old result agent.new marks.new }
{
    take_on(alloc, agent, port, Happening::Link(up), marks)
}

/// Closes an agent, and frees its memory. Does nothing if it is not open.
#[unsafe(no_mangle)]
pub extern "C" fn lldpa_close(alloc: Global, agent: &mut LldpaAgent)
    ensures { agent.new.is_open ≡ false }
{
    let _ = agent.take(alloc);
}
