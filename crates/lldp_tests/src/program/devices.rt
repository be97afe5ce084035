//! A reader and a writer that handle few octets at a time and can fail, and a network.
ghost use Rattle.std.specs.Prelude.{◌≤◌};

use std::io::{Error, ErrorKind, Read, Result, Write};
use std::net::{Net, SocketAddr, TcpListener, TcpStream};

/// A reader that returns its octets in a first piece and later pieces of these sizes. It can fail
/// at one call with `Interrupted`, which must count like any other failure.
#[derive(Drop)]
pub struct Drip<'a> {
    octets: &'a [u8],
    first: usize,
    later: usize,
    fails_at: Option<usize>,
    /// How many reads were made.
    pub calls: usize,
}

impl<'a> Drip<'a> {
    pub fn new(octets: &'a [u8], first: usize, later: usize, fails_at: Option<usize>) -> Self {
        Drip {
            octets,
            first,
            later,
            fails_at,
            calls: 0,
        }
    }

    /// Returns a reader that returns all its octets in one read.
    pub fn whole(octets: &'a [u8]) -> Self {
        Drip::new(octets, usize::MAX, usize::MAX, None)
    }
}

impl Read for Drip<'_> {
    fn read(&mut self, buf: &mut [u8]) -> Result<usize> {
        let piece = if self.calls == 0 {
            self.first
        } else {
            self.later
        };
        self.calls = self.calls.saturating_add(1);
        if self.fails_at == Some(self.calls) {
            return Err(Error::from(ErrorKind::Interrupted));
        }
        let n = piece.min(buf.len()).min(self.octets.len());
        let (front, rest) = self.octets.split_at(n);
        buf[..n].copy_from_slice(front);
        self.octets = rest;
        Ok(n)
    }
}

/// How a writer fails.
#[derive(Clone, Copy, PartialEq, Eq)]
pub enum Burn {
    Error,
    Interrupted,
    TakesNone,
    AtFlush,
}

/// A writer that accepts pieces of this size. It fails once, after this many octets, or at each
/// flush. It also keeps what is written after the failure.
#[derive(Drop)]
pub struct Fuse {
    octets: [u8; 4096],
    len: usize,
    piece: usize,
    burns_at: usize,
    burn: Burn,
    /// How often the writer was flushed.
    pub flushes: usize,
    ghost within: { len ≤ 4096 },
}

impl Fuse {
    pub fn new(piece: usize, burns_at: usize, burn: Burn) -> Self {
        Fuse {
            octets: [0; 4096],
            len: 0,
            piece,
            burns_at,
            burn,
            flushes: 0,
        }
    }

    /// Returns a writer that never fails.
    pub fn endless() -> Self {
        Fuse::new(usize::MAX, usize::MAX, Burn::Error)
    }

    /// Returns what was written.
    pub fn taken(&self) -> &[u8] {
        &self.octets[..self.len]
    }
}

impl Write for Fuse {
    fn write(&mut self, buf: &[u8]) -> Result<usize> {
        let room = self.burns_at.min(4096).saturating_sub(self.len);
        let n = self.piece.min(buf.len()).min(room);
        if n == 0 {
            self.burns_at = usize::MAX;
            return match self.burn {
                Burn::Error => Err(Error::from(ErrorKind::Other)),
                Burn::Interrupted => Err(Error::from(ErrorKind::Interrupted)),
                _ => Ok(0),
            };
        }
        let len = self.len;
        self.octets[len..len + n].copy_from_slice(&buf[..n]);
        self.len = len + n;
        Ok(n)
    }

    fn flush(&mut self) -> Result<()> {
        self.flushes = self.flushes.saturating_add(1);
        if self.burn == Burn::AtFlush {
            return Err(Error::from(ErrorKind::Other));
        }
        Ok(())
    }
}

/// A network with one port, 127.0.0.1:4711, where clients may already wait, or with no port.
#[derive(Drop)]
pub struct Network<'a> {
    pub listener: Option<&'a TcpListener>,
}

impl Net for Network<'_> {
    type Stream = TcpStream;

    type Listener = TcpListener;

    fn bind(&self, addr: SocketAddr) -> Result<TcpListener> {
        match self.listener {
            Some(listener) if addr == SocketAddr::from(([127, 0, 0, 1], 4711)) => {
                listener.try_clone()
            }
            _ => Err(Error::from(ErrorKind::AddrNotAvailable)),
        }
    }

    fn connect(&self, _addr: SocketAddr) -> Result<TcpStream> {
        Err(Error::from(ErrorKind::Unsupported))
    }
}
