//! Laws of the definitions alone, for proofs about the machine and for readers of the definitions.

ghost use Rattle.std.specs.Prelude.{◌≡◌, ◌≤◌, ◌↔◌, Bool, IsTrue, ℕ, List, [], ◌∷◌, map};
ghost use Rattle.lldp_transmit.specs.History.{Settings, Event, History, settings, event};
ghost use Rattle.lldp_transmit.specs.Moments.{Moment, moment, moments, mark_at, is_active, is_allowed, is_up, is_waiting, rested, signals_left, distance, timer_ends, due, open_at};
ghost use Rattle.lldp_transmit.specs.Remaining.{credit_left};
ghost use Rattle.lldp_transmit.specs.Positions.{HasStarted, HasRested, IsStart, IsStop, IsTimerEnd, IsSignal, IsOpening, AreLeft, IsDistance, HasWanted, IsDue, IsOpen, IsLeastRoom};
ghost use Rattle.lldp_transmit.specs.Laws.Causes.{MayTransmit, IsLinked, CanSend, CanStop};
ghost use Rattle.lldp_transmit.specs.declared.limits.TheConstants.{MOST_CREDIT, MOST_FAST, MOST_REINIT};
ghost use Rattle.lldp_transmit.specs.Code.Machine.{Machine, opened, stepped};
ghost use Rattle.lldp_transmit.specs.Standing.{AreSettings, Stands};
ghost use Rattle.lldp_transmit.specs.Windows.{AreTimely, with_marks, WindowsHold};
ghost use Rattle.lldp_transmit.specs.declared.event.Cause.{Cause};
ghost use Rattle.lldp_transmit.specs.declared.event.Mark.{Mark};

/// A machine just opened, with settings in range (`AreSettings`), represents the empty history.
#[tactic(auto, using(crate::proofs::Standing::stands_at_first))]
pub fn opened_machines_stand()
    ensures { (s : Settings) → AreSettings s → Stands s [] (opened s) }
{}

/// If a machine represents a history, then after a step it represents that history with the event,
/// and the answer of the step is the event's mark.
pub fn steps_carry_standing()
    ensures stands { (s : Settings) (past : History) (t : Machine) (e : Event) →
        Stands s past t → Stands s (e ∷ past) (stepped t e.cause e.interval).0 }
    ensures mark { (s : Settings) (past : History) (t : Machine) (e : Event) →
        Stands s past t → (stepped t e.cause e.interval).1 ≡ mark_at s (e ∷ past) }
{}

/// An event whose cause is `Nothing` needs no call of `event`: the machine represents the history
/// with that event too, and no frame is sent.
pub fn causeless_events_change_nothing()
    ensures stands { (s : Settings) (past : History) (t : Machine) (interval : ℕ) →
        Stands s past t → Stands s (event Cause.Nothing interval ∷ past) t }
    ensures quiet { (s : Settings) (past : History) (t : Machine) (interval : ℕ) →
        Stands s past t → mark_at s (event Cause.Nothing interval ∷ past) ≡ Mark.Quiet }
{}

/// If a port's settings are in their ranges, these properties hold for each history: no run of
/// events has more ordinary frames than txCreditMax plus the ticks after its first event, or more
/// stops than one plus one for each reinitDelay ticks; and up to each event, no other choice of
/// events to send at, each with a frame due and the window open, has sent more.
pub fn windows_hold()
    ensures { (s : Settings) (h : History) → AreSettings s → WindowsHold s h }
{}

/// At each event with an ordinary frame, a frame is due and the window is open (`AreTimely`).
#[tactic(auto, using(crate::proofs::Earliest::timely))]
pub fn frames_are_timely()
    ensures { (s : Settings) (h : History) →
        AreTimely s (map (λ m. m.sent) (moments s h)) (moments s h) }
{}

/// Active, rested, start and stop, stated by positions: a port is active if it had a start and
/// since then no stop and no lost link; it has rested if each stop is long enough ago.
pub fn positions_tell_activity()
    ensures active { (s : Settings) (h : History) →
        IsTrue (is_active (moments s h)) ↔ HasStarted (moments s h) }
    ensures rested { (s : Settings) (past : List Moment) →
        IsTrue (rested s past) ↔ HasRested s past }
    ensures start { (s : Settings) (h : History) (e : Event) →
        IsTrue (moment s (moments s h) e).start
        ↔ IsStart s (moments s h) (moment s (moments s h) e) }
    ensures stop { (s : Settings) (h : History) (e : Event) →
        IsTrue (moment s (moments s h) e).stop ↔ IsStop s (moments s h) (moment s (moments s h) e) }
{}

/// Signals, bursts, distances and the end of the timer, stated by the positions of the last signal
/// and of the last opening of a burst.
pub fn positions_tell_signals()
    ensures signal { (s : Settings) (h : History) (e : Event) →
        IsTrue (moment s (moments s h) e).signal
        ↔ IsSignal s (moments s h) (moment s (moments s h) e) }
    ensures opening { (s : Settings) (h : History) (e : Event) →
        IsTrue (moment s (moments s h) e).opening
        ↔ IsOpening s (moments s h) (moment s (moments s h) e) }
    ensures left { (s : Settings) (ms : List Moment) (n : ℕ) →
        (n ≡ signals_left s ms) ↔ AreLeft s ms n }
    ensures distance { (s : Settings) (m : Moment) (before : List Moment) (d : ℕ) →
        (d ≡ distance s (m ∷ before)) ↔ IsDistance s m before d }
    ensures timer { (s : Settings) (past : List Moment) (m : Moment) →
        IsTrue (timer_ends s past m) ↔ IsTimerEnd s past m }
{}

/// Waiting, due, open, sent and the credit, stated by positions. A frame waits if a signal since
/// the start has had no frame. It is due if the port is also active (`chosen`: also for any other
/// choice of frames that is timely, as `AreTimely` defines). If the settings are in their ranges,
/// the window is open if, with one more frame, each run that ends now is within its bound; the
/// credit is the only number that `IsLeastRoom` accepts; and a frame is sent if it is due and the
/// window is open.
pub fn positions_tell_sending()
    ensures waiting { (ms : List Moment) → IsTrue (is_waiting ms) ↔ HasWanted ms }
    ensures due { (s : Settings) (h : History) (e : Event) →
        IsTrue (due (moments s h) (moment s (moments s h) e))
        ↔ IsDue (moments s h) (moment s (moments s h) e) }
    ensures chosen { (s : Settings) (h : History) (e : Event) (marks : List Bool) →
        AreTimely s marks (moments s h) →
        IsTrue (due (with_marks marks (moments s h)) (moment s (moments s h) e))
        ↔ IsDue (with_marks marks (moments s h)) (moment s (moments s h) e) }
    ensures open { (s : Settings) (past : List Moment) (m : Moment) →
        AreSettings s → IsTrue (open_at s past m) ↔ IsOpen s past m }
    ensures credit { (s : Settings) (h : History) →
        AreSettings s → IsLeastRoom s (moments s h) (credit_left s (moments s h)) }
    ensures one_credit { (s : Settings) (ms : List Moment) (credit other : ℕ) →
        IsLeastRoom s ms credit → IsLeastRoom s ms other → credit ≡ other }
    ensures sent { (s : Settings) (h : History) (e : Event) → AreSettings s →
        IsTrue (moment s (moments s h) e).sent
        ↔ (IsDue (moments s h) (moment s (moments s h) e)
        × IsOpen s (moments s h) (moment s (moments s h) e)) }
{}

/// A port may transmit exactly if each `Stop` has a later `Allow` and, if the port was opened
/// without the right to transmit, there is an `Allow`. Its link is up exactly if each `Down` has a
/// later `Up`.
pub fn causes_tell_allowed_and_up()
    ensures allowed { (s : Settings) (h : History) →
        IsTrue (is_allowed s (moments s h)) ↔ MayTransmit s h }
    ensures up { (s : Settings) (h : History) → IsTrue (is_up (moments s h)) ↔ IsLinked h }
{}

/// If the settings are in their ranges, ordinary frames are sent only at ticks, local changes and
/// new neighbors, by a port that is active, may transmit and has its link up.
pub fn ordinary_frames_go_on_active_ports()
    ensures { (s : Settings) (past : History) (e : Event) → AreSettings s →
        mark_at s (e ∷ past) ≡ Mark.Ordinary → CanSend s e past }
{}

/// A shutdown frame is sent exactly at a `Stop` of a port that was active.
pub fn shutdown_frames_go_at_stops()
    ensures { (s : Settings) (past : History) (e : Event) →
        (mark_at s (e ∷ past) ≡ Mark.Shutdown) ↔ CanStop s e past }
{}

/// The moments of a history are its events in the same order, each with its own tx-interval.
#[tactic(auto, using(crate::proofs::Causes::events_kept))]
pub fn moments_keep_their_events()
    ensures { (s : Settings) (h : History) →
        map (λ m. event m.cause m.interval) (moments s h) ≡ h }
{}

/// A port can be opened with `MOST_CREDIT`, `MOST_FAST` and `MOST_REINIT` together, and each of
/// them is the greatest value that the definitions accept.
pub fn constants_are_the_greatest_settings()
    ensures allowed { (allowed : Bool) →
        AreSettings (settings MOST_CREDIT MOST_FAST MOST_REINIT allowed) }
    ensures credit { (s : Settings) → AreSettings s → s.credit_max ≤ MOST_CREDIT }
    ensures fast_init { (s : Settings) → AreSettings s → s.fast_init ≤ MOST_FAST }
    ensures reinit { (s : Settings) → AreSettings s → s.reinit ≤ MOST_REINIT }
{}

/// A port can be opened with txCreditMax, txFastInit and reinitDelay of 1 together, and 1 is the
/// least value of each of them that the definitions accept.
pub fn one_is_the_least_setting()
    ensures allowed { (allowed : Bool) → AreSettings (settings 1 1 1 allowed) }
    ensures credit { (s : Settings) → AreSettings s → 1 ≤ s.credit_max }
    ensures fast_init { (s : Settings) → AreSettings s → 1 ≤ s.fast_init }
    ensures reinit { (s : Settings) → AreSettings s → 1 ≤ s.reinit }
{}
