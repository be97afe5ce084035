//! Laws about the numbers and values that C passes and receives.
ghost use Rattle.std.specs.Prelude.{ℕ};
ghost use Rattle.lldpa_c.specs.declared.options.LldpaOptions.{LldpaOptions};
ghost use Rattle.lldpa_c.specs.Laws.Asked.{AsksForEach};
ghost use Rattle.lldpa_c.specs.Laws.Gone.{AreGone};
ghost use Rattle.lldpa_c.specs.Laws.Left.{AreLeaving};
ghost use Rattle.lldpa_c.specs.Laws.Machines.{AreTaken};
ghost use Rattle.lldpa_c.specs.declared.holder.LldpaAgent.{LldpaAgent};
ghost use Rattle.lldpa_c.specs.Opening.{OpensOnce};
ghost use Rattle.lldpa_c.specs.Laws.Opened.{AreOptions, OpensInOrder};
ghost use Rattle.lldpa_c.specs.Laws.Order.{AreInOrder, EventsAreInOrder};
ghost use Rattle.lldpa_c.specs.Laws.Passed.{ArePassedOn, AreContinued, AreKept};
ghost use Rattle.lldpa_c.specs.Laws.Passing.{AreSeconds, ArePassing};
ghost use Rattle.lldpa_c.specs.Laws.Read.{AreRanges, AreBuilt, AreExamined, AreWalked};
ghost use Rattle.lldpa_c.specs.Laws.Refused.{AreAllOrNothing, AreSpared, AreNotWritten};
ghost use Rattle.lldpa_c.specs.Laws.Reported.{AreReported};
ghost use Rattle.lldpa_c.specs.Laws.Shown.{AreShown, AreOfPorts, AreLines, AreRead};
ghost use Rattle.lldpa_c.specs.Laws.Words.{AreWords};
ghost use Rattle.lldpa_c.specs.Numbers.{AreGiven, AreTold};

/// Causes, marks, shows and roles have these numbers when C passes them, and no other number is
/// valid. Marks, shows, statuses, faults, news and results have these numbers when C receives them.
pub fn numbers_stand_for_these()
    ensures given { AreGiven }
    ensures told { AreTold }
{}

/// Each function makes its checks in the order in which the header lists them, and answers the
/// number of the first that fails, or 0.
pub fn checks_are_in_order()
    ensures checks { AreInOrder }
    ensures events { EventsAreInOrder }
{}

/// Each option of the agent has the value of its field in the struct that C passes.
pub fn options_ask_field_by_field()
    ensures { (o : LldpaOptions) → AsksForEach o }
{}

/// Which options are read, and what the agent is when it was opened. Of several errors the first in
/// the order of the header is told.
pub fn options_are_read_or_refused()
    ensures options { (o : LldpaOptions) → AreOptions o }
    ensures order { (o : LldpaOptions) (before after : LldpaAgent) (answer : ℕ) →
        OpensOnce o before answer after → OpensInOrder o before answer after }
{}

/// The numbers in structs and the texts of TLVs equal those in the lines of shows. The fields of
/// capabilities and management addresses equal octets of a TLV's body.
pub fn told_values_are_shown()
    ensures shown { AreShown }
    ensures ports { AreOfPorts }
    ensures lines { AreLines }
    ensures read { AreRead }
{}

/// Faults have their numbers, ranges their lengths, and a TLV that is built its number. What is
/// built is told as it was given, what is told is what a port counts, and a walk finds each kept TLV.
pub fn lldpdus_are_told_in_full()
    ensures ranges { AreRanges }
    ensures built { AreBuilt }
    ensures examined { AreExamined }
    ensures walked { AreWalked }
{}

/// Events reach the engine, and C receives each frame to send. A command tells the show to print,
/// and a show can be read in parts. Calls that only read change nothing.
pub fn events_are_passed_on()
    ensures passed { ArePassedOn }
    ensures continued { AreContinued }
    ensures kept { AreKept }
{}

/// A call that is refused changes nothing. One that is not does what it is for, and leaves the agent
/// open.
pub fn calls_do_all_or_nothing()
    ensures { AreAllOrNothing }
{}

/// A call that reads an agent writes nothing if it is refused. Nor does building write to the buffer,
/// nor the faults if an identifier has another length or there is no number for each TLV.
pub fn refused_calls_write_nothing()
    ensures { AreSpared }
{}

/// Some TLVs have no text, by their type or their length alone.
pub fn some_tlvs_have_no_text()
    ensures { AreNotWritten }
{}

/// The news say what a frame did, judged by the port before it and after it.
pub fn news_say_what_frames_do()
    ensures { AreReported }
{}

/// `lldpa_ticks` counts seconds up to the first at which something happens, and `lldpa_due` tells
/// that second. Until then only clocks change.
pub fn seconds_pass_until_something_is_due()
    ensures seconds { AreSeconds }
    ensures passing { ArePassing }
{}

/// The neighbors that C can read after `lldpa_ticks` are exactly those that the tables held before
/// and not after.
pub fn aged_out_neighbors_are_those_lost()
    ensures { AreGone }
{}

/// Ports that leave say goodbye if they were active, and then neither hear nor send.
pub fn ports_leave_with_a_goodbye()
    ensures { AreLeaving }
{}

/// A transmit machine takes exactly the events in range, and marks them by its history.
pub fn machines_take_events_in_range()
    ensures { AreTaken }
{}

/// Each error number has its description, and no other number has a description.
pub fn faults_have_words()
    ensures { AreWords }
{}
