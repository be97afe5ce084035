//! The transmit machine of one port: a few counters and flags.

ghost use Rattle.std.specs.Prelude.{◌≡◌, ◌≤◌, ◌+◌, ◌-◌, ◌↔◌, [], ◌∷◌, min, IfSome, IsSome};
ghost use Rattle.lldp_transmit.specs.History.{settings, event};
ghost use Rattle.lldp_transmit.specs.Moments.{moments, mark_at, is_active, is_allowed, is_up};
ghost use Rattle.lldp_transmit.specs.Positions.{IsDueAndOpen, StopsAt, IsLeastRoom};
ghost use Rattle.lldp_transmit.specs.Remaining.{credit_left};
ghost use Rattle.lldp_transmit.specs.Standing.{AreSettings, Stands, ForEachHistory};
ghost use Rattle.lldp_transmit.specs.Windows.{IsBoundedWith, StopsRarelyWith, IsEarliestWith};
ghost use Rattle.lldp_transmit.specs.Code.Machine.{opened, served, signalled, ticked, stopped, stepped};

use crate::event::{Cause, Mark};
use crate::parts::Parts;
use std::marker::Model;

/// The transmit machine of one port.
#[derive(Clone, Copy, Debug, PartialEq, Eq)]
pub struct Transmit {
    parts: Parts,
}

impl Model for Transmit {
    ghost use Rattle.std.specs.Prelude.{◌≤◌};
    ghost use Rattle.lldp_transmit.specs.Code.Machine.{Machine};

    ghost Value = { Machine };

    ghost view = { λ t. t.parts };

    ghost invariant = { λ t. t.parts.credit ≤ t.parts.credit_max };

    ghost inverse = { λ machine. record { parts = machine } };
}

impl Transmit {
    /// Returns a machine with full credit, for a port whose link is up and that is not active. It
    /// represents the empty history.
    ///
    /// `credit_max` is txCreditMax, 1 to 10; `fast_init` is txFastInit, 1 to 8; `reinit` is
    /// reinitDelay in seconds, 1 to 10; `allowed` is whether the port may transmit from the start.
    pub fn new(credit_max: u8, fast_init: u8, reinit: u8, allowed: bool) -> Self
        requires { AreSettings (settings credit_max fast_init reinit allowed) }
        ensures value { result ≡ opened (settings credit_max fast_init reinit allowed) }
        ensures stands { Stands (settings credit_max fast_init reinit allowed) [] result }
    {
        Transmit {
            parts: Parts {
                timer: 0,
                credit_max,
                fast_init,
                reinit,
                credit: credit_max,
                wait: 0,
                left: 0,
                waiting: false,
                active: false,
                allowed,
                up: true,
            },
        }
    }

    /// Returns the fields of the machine.
    pub fn parts(&self) -> Parts
        ensures { result ≡ self.now }
    {
        let parts = &self.parts;
        *parts
    }

    /// Returns the machine with these fields, or None exactly if the credit is above `credit_max`.
    /// No machine has such a credit.
    pub fn of_parts(parts: &Parts) -> Option<Transmit>
        ensures some { IfSome result (λ machine. machine ≡ parts.now) }
        ensures exists { IsSome result ↔ (parts.now.credit ≤ parts.now.credit_max) }
    {
        if parts.credit > parts.credit_max {
            return None;
        }
        Some(Transmit { parts: *parts })
    }

    /// Applies one event, with the tx-interval in force after it (in seconds, from 1 on), and returns
    /// which frame is sent. The machine then represents its history with the event.
    ///
    /// Ordinary exactly if a frame is due and the window is open: the port is active, some signal
    /// since its start has had no frame yet, and with this frame no run of events that ends here
    /// has more ordinary frames than txCreditMax plus the ticks after its first event. Shutdown
    /// exactly if the port was active and may no longer transmit. Quiet if neither is sent. With
    /// this answer no run that ends here has more ordinary frames than that bound, or more stops
    /// than one plus one for each reinitDelay ticks in it; and no other choice of events to
    /// send at, each with a frame due and the window open, has sent more frames up to here.
    ///
    /// If the port is not active, only a tick can send a frame. `Allow`, `Down`, `Up` and `Nothing`
    /// never send one.
    pub fn event(&mut self, cause: Cause, interval: u16) -> Mark
        // The machine after the event, and the answer, computed from the machine before.
        ensures next { self.new ≡ (stepped self.old cause interval).0 }
        ensures answer { result ≡ (stepped self.old cause interval).1 }

        // If the machine represented a history, it now represents that history with this event.
        ensures stands { ForEachHistory self.old (λ s past.
            Stands s (event cause interval ∷ past) self.new) }

        // The answer is the event's mark: Ordinary exactly if a frame is due and its window is
        // open, Shutdown exactly at a stop.
        ensures mark { ForEachHistory self.old (λ s past. result
            ≡ mark_at s (event cause interval ∷ past)) }
        ensures ordinary { ForEachHistory self.old (λ s past.
            (result ≡ Mark.Ordinary) ↔ IsDueAndOpen s past (event cause interval)) }
        ensures shutdown { ForEachHistory self.old (λ s past.
            (result ≡ Mark.Shutdown) ↔ StopsAt s past (event cause interval)) }

        // No run of events that ends with this one has more frames than txCreditMax plus the ticks
        // after its first event, or more stops than one plus one for each reinitDelay ticks. No
        // other choice of events to send at, each with a frame due and the window open, has sent
        // more.
        ensures bounded { ForEachHistory self.old (λ s past.
            IsBoundedWith s past (event cause interval) result) }
        ensures few_stops { ForEachHistory self.old (λ s past.
            StopsRarelyWith s past (event cause interval) result) }
        ensures earliest { ForEachHistory self.old (λ s past.
            IsEarliestWith s past (event cause interval) result) }
    {
        self.parts.step(cause, interval)
    }

    /// Returns how many ordinary frames may be sent before the next tick: the least of txCreditMax
    /// and, for each run that ends now, its bound less its frames.
    pub fn credit(&self) -> u8
        ensures value { result ≡ self.now.credit }
        ensures most { self.now.credit ≤ self.now.credit_max }
        ensures left { ForEachHistory self.now (λ s past. result ≡ credit_left s (moments s past)) }
        ensures least { ForEachHistory self.now (λ s past. IsLeastRoom s (moments s past) result) }
    {
        self.parts.credit
    }

    /// Returns whether the port has started, and has neither stopped nor lost its link since.
    pub fn is_active(&self) -> bool
        ensures value { result ≡ self.now.active }
        ensures active { ForEachHistory self.now (λ s past. result ≡ is_active (moments s past)) }
    {
        self.parts.active
    }

    /// Returns whether the port may transmit: as the last `Stop` or `Allow` says or, without one,
    /// as when the port was opened.
    pub fn is_allowed(&self) -> bool
        ensures value { result ≡ self.now.allowed }
        ensures allowed { ForEachHistory self.now (λ s past. result
            ≡ is_allowed s (moments s past)) }
    {
        self.parts.allowed
    }

    /// Returns whether the link is up: as the last `Down` or `Up` says; true if there was none.
    pub fn is_up(&self) -> bool
        ensures value { result ≡ self.now.up }
        ensures up { ForEachHistory self.now (λ s past. result ≡ is_up (moments s past)) }
    {
        self.parts.up
    }
}

impl Parts {
    fn step(&mut self, cause: Cause, interval: u16) -> Mark
        requires { self.old.credit ≤ self.old.credit_max }
        ensures next { self.new ≡ (stepped self.old cause interval).0 }
        ensures answer { result ≡ (stepped self.old cause interval).1 }
    {
        match cause {
            Cause::Tick => self.tick(interval),
            Cause::Change if self.active => self.signal(interval),
            Cause::Neighbor if self.active => {
                if self.left == 0 {
                    self.left = self.fast_init;
                }
                self.left = self.left.saturating_sub(1);
                self.signal(interval)
            }
            Cause::Stop => self.stop(),
            Cause::Allow => {
                self.allowed = true;
                Mark::Quiet
            }
            Cause::Down => {
                self.up = false;
                self.active = false;
                Mark::Quiet
            }
            Cause::Up => {
                self.up = true;
                Mark::Quiet
            }
            Cause::Change | Cause::Neighbor | Cause::Nothing => Mark::Quiet,
        }
    }

    fn tick(&mut self, interval: u16) -> Mark
        requires { self.old.credit ≤ self.old.credit_max }
        ensures next { self.new ≡ (ticked self.old interval).0 }
        ensures answer { result ≡ (ticked self.old interval).1 }
    {
        let timer_ends = self.timer == 1;
        self.refill();
        self.run_down();
        if !self.active {
            if !self.allowed || !self.up || self.wait > 0 {
                return Mark::Quiet;
            }
            self.active = true;
            self.left = 0;
            self.signal(interval)
        } else if timer_ends {
            self.left = self.left.saturating_sub(1);
            self.signal(interval)
        } else if self.waiting {
            self.serve()
        } else {
            Mark::Quiet
        }
    }

    /// Adds one credit for a tick, up to txCreditMax.
    fn refill(&mut self)
        requires { self.old.credit ≤ self.old.credit_max }
        ensures { self.new
            ≡ record self.old { credit = min self.old.credit_max (self.old.credit + 1) } }
    {
        if self.credit < self.credit_max {
            self.credit += 1;
        }
    }

    /// Counts `wait` and `timer` down by one tick, unless they are 0.
    fn run_down(&mut self)
        ensures { self.new
            ≡ record self.old { wait = self.old.wait - 1; timer = self.old.timer - 1 } }
    {
        self.timer = self.timer.saturating_sub(1);
        if self.wait > 0 {
            self.wait -= 1;
        }
    }

    fn stop(&mut self) -> Mark
        ensures next { self.new ≡ (stopped self.old).0 }
        ensures answer { result ≡ (stopped self.old).1 }
    {
        self.allowed = false;
        if !self.active {
            return Mark::Quiet;
        }
        self.active = false;
        self.wait = self.reinit;
        Mark::Shutdown
    }

    /// Sets the timer to the distance to the next signal, and requests a frame.
    fn signal(&mut self, interval: u16) -> Mark
        ensures next { self.new ≡ (signalled self.old interval).0 }
        ensures answer { result ≡ (signalled self.old interval).1 }
    {
        self.timer = if self.left > 0 { 1 } else { interval };
        self.serve()
    }

    /// Sends the requested frame if credit is left. Otherwise the frame waits.
    fn serve(&mut self) -> Mark
        ensures next { self.new ≡ (served self.old).0 }
        ensures answer { result ≡ (served self.old).1 }
    {
        self.waiting = self.credit == 0;
        if self.waiting {
            return Mark::Quiet;
        }
        self.credit -= 1;
        Mark::Ordinary
    }
}
