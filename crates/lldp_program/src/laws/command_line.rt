//! What the program's arguments ask for.
ghost use Rattle.std.specs.Prelude.{◌≡◌, ℕ, List, Option, Result, length, is_err};
ghost use Rattle.std.specs.List.{filter};
ghost use Rattle.std.specs.Borrow.{Bor};
ghost use Rattle.clap.specs.Walk.{Row, Text};
ghost use Rattle.lldp_engine.specs.Options.{Options};
ghost use Rattle.lldp_program.specs.Laws.CommandLine.{AreAsked, HasOptions, HasRoles, SeparateByColons, SpellAddresses, SpellMacs, TakesRange};
ghost use Rattle.lldp_program.specs.CommandLine.Usage.{Asks};
ghost use Rattle.lldp_program.specs.Laws.Listening.{AskByTexts, AskByWords};
ghost use Rattle.lldp_program.specs.Serving.{faults_of};
ghost use Rattle.lldp_program.specs.declared.arguments.Listening.{Listening};
ghost use Rattle.lldp_program.specs.declared.trace.RunFault.{RunFault};

/// The command line has exactly these options, none with an alias or a short form, and these roles,
/// octet by octet. Four options accept exactly the numbers that opening an agent accepts.
#[tactic(auto, using(crate::proofs::ForLaws::CommandLine::options_are_these_alone))]
pub fn options_are_these_alone()
    ensures options { (roles : Bor (List (Bor Text))) → HasOptions roles }
    ensures roles { (roles : Bor (List (Bor Text))) → HasRoles roles }
    ensures ranges { (roles : Bor (List (Bor Text))) (options : Options) →
        TakesRange roles options }
{}

/// Each option has the value of its own argument, or its default. Every MAC address can be asked
/// for, by digits of either case with colons between them and no other text, and every IPv4 address.
#[tactic(auto, using(crate::proofs::ForLaws::CommandLine::are_asked))]
pub fn options_are_what_their_words_say()
    ensures asked { (rows : List Row) (options : Options) → Asks rows options →
        AreAsked rows options }
    ensures macs { SpellMacs }
    ensures colons { (text mac : List ℕ) → SeparateByColons text mac }
    ensures addresses { SpellAddresses }
{}

/// For all texts of `--listen` and `--connections`, the first spells the port to listen at, and the
/// second the number of connections to serve. Four command lines are worked examples; one has the
/// default of one connection. `faults_of` counts the connections that ended with a fault.
#[tactic(auto, using(crate::proofs::Serving::words_ask_to_listen))]
pub fn words_ask_to_listen()
    ensures texts { (port connections : Option Text) (asked : Option Listening) →
        AskByTexts port connections asked }
    ensures words { (roles : Bor (List (Bor Text))) → AskByWords roles }
    ensures counted { (results : List (Result (Unit {0}) RunFault)) →
        faults_of results ≡ length (filter is_err results) }
{}
