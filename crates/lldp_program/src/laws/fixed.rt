//! The numbers of the program, and how it ends.
ghost use Rattle.lldp_program.specs.Laws.FixedNumbers.{AreEnds, AreNumbers};

/// Statuses, bounds and faults have these numbers. Each fault of a run, an opening or an address
/// ends the program with its own line.
pub fn statuses_and_faults_have_fixed_numbers()
    ensures numbers { AreNumbers }
    ensures ends { AreEnds }
{}
