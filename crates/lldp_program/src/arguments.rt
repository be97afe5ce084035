//! The program's arguments, and what they ask for.
ghost use Rattle.std.specs.Prelude.{◌≡◌, ◌≤◌, ◌⊎◌, ℕ, List, IfOk, IfErr, Some, None, false, codes, map, option_map, pos};
ghost use Rattle.std.specs.Borrow.{Bor};
ghost use Rattle.std.specs.Net.Grammar.{IsDotted};
ghost use Rattle.clap.specs.Words.{app_of, first_value, found_of, kind_of, one_text, rows_of, rule_of};
ghost use Rattle.clap.specs.Lexer.{usize_max};
ghost use Rattle.clap.specs.Simple.{new_rule};
ghost use Rattle.clap.specs.Walk.{byte_or_zero};
ghost use Rattle.clap.specs.declared.builder.action.ArgAction.TheVariants.{SetTrue};
ghost use Rattle.clap.specs.declared.builder.value_parser.ValueParser.TheVariants.{Signed};
ghost use Rattle.clap.specs.declared.error.kind.ErrorKind.TheVariants as ErrorKind;
ghost use Rattle.lldp_program.specs.CommandLine.Usage.{AreRoles, Asks, AsksListening, AsksManagement, HasBadAddress, IsBad, IsParse, WritesNumber, MayFail, number_rule, program, role_named, role_rule, text_rule, valued_rule};
ghost use Rattle.lldp_engine.specs.Options.{InRange, options_of};
ghost use Rattle.lldp_program.specs.Ranges.{most_connections, most_tcp_port};
ghost use Rattle.lldp_program.specs.CommandLine.Arguments.{GivesNumber, GivesText, IsProgramParse};

use crate::addresses::{read_ipv4, read_mac};
use crate::help::{ABOUT, MORE, USAGE, VERSION};
use clap::{Arg, ArgAction, ArgMatches, Command, Error, value_parser};
use lldp_engine::{MOST_CREDIT, MOST_FAST, MOST_NEIGHBORS, MOST_REINIT, Options, Role};
use std::alloc::{AllocError, Global};
use std::convert::AsStr;

/// The greatest port of `--listen`.
pub const MOST_TCP_PORT: u16 = 65535;

/// The greatest number of `--connections`.
pub const MOST_CONNECTIONS: u16 = 65535;

const MAX_NEIGHBORS: &str = "max-neighbors";

const TX_CREDIT_MAX: &str = "tx-credit-max";

const TX_FAST_INIT: &str = "tx-fast-init";

const REINIT_DELAY: &str = "reinit-delay";

const MAC: &str = "mac";

const HOSTNAME: &str = "hostname";

const MANAGEMENT: &str = "management";

const ROLE: &str = "role";

const RECEIVE_ONLY: &str = "receive-only";

const LISTEN: &str = "listen";

const CONNECTIONS: &str = "connections";

const PORT: &str = "PORT";

const MAX_NEIGHBORS_HELP: &str = "Neighbors kept per port, 1 to 128";

const MAC_HELP: &str = "Source MAC, chassis ID";

const HOSTNAME_HELP: &str = "System name, up to 255 octets";

const MANAGEMENT_HELP: &str = "Management address to announce";

const ROLE_HELP: &str = "station, bridge or router";

const TX_CREDIT_MAX_HELP: &str = "Frames a port may send at once, 1 to 10";

const TX_FAST_INIT_HELP: &str = "Fast frames for a new neighbor, 1 to 8";

const REINIT_DELAY_HELP: &str = "Seconds before a port restarts, 1 to 10";

const CONNECTIONS_HELP: &str = "Exit after N connections, 1 to 65535";

const ROLES: &[&str] = &["station", "bridge", "router"];

/// Where to listen for connections, each of which brings a trace: a TCP port of 127.0.0.1, and how
/// many connections to serve. Both numbers are at least 1.
#[derive(Clone, Copy, Debug, PartialEq, Eq)]
pub struct Listening {
    pub port: u16,
    pub connections: u16,
}

/// The option whose address cannot be read.
#[derive(Clone, Copy, Debug, PartialEq, Eq)]
pub enum AddressFault {
    Mac,
    Management,
}

/// Declares an option whose value is a whole number from 1 to `greatest`.
fn number<'a>(
    alloc: Global,
    name: &'a str,
    greatest: u16,
    default: &'a str,
    help: &'a str,
) -> Arg<'a>
    ensures { rule_of result ≡ number_rule name.entry.now greatest default.entry.now }
{
    let numbers = value_parser!(u16).range(1..=i64::from(greatest));
    text(alloc, name, "N", default, help).value_parser(numbers)
}

/// Declares an option whose value is a text.
fn text<'a>(
    alloc: Global,
    name: &'a str,
    value: &'a str,
    default: &'a str,
    help: &'a str,
) -> Arg<'a>
    ensures { rule_of result ≡ text_rule name.entry.now default.entry.now }
{
    valued(alloc, name, value, help)
        .action(ArgAction::Set)
        .default_value(default)
}

/// Declares an option that has a value.
fn valued<'a>(alloc: Global, name: &'a str, value: &'a str, help: &'a str) -> Arg<'a>
    ensures { rule_of result ≡ valued_rule name.entry.now }
{
    Arg::new(alloc, name)
        .long(name)
        .value_name(value)
        .help(help)
}

fn role<'a>(alloc: Global) -> Arg<'a>
    ensures { (roles : Bor (List (Bor (List ℕ)))) × AreRoles roles
        × (rule_of result ≡ role_rule roles) }
{
    text(alloc, ROLE, "ROLE", "station", ROLE_HELP).value_parser(ROLES)
}

fn receive_only<'a>(alloc: Global) -> Arg<'a>
    ensures { rule_of result
        ≡ record (new_rule (codes "receive-only")) { long = Some (codes "receive-only"); action = Some SetTrue } }
{
    Arg::new(alloc, RECEIVE_ONLY)
        .long(RECEIVE_ONLY)
        .action(ArgAction::SetTrue)
        .help("Start each port with the status rx-only")
}

fn listen<'a>(alloc: Global) -> Arg<'a>
    ensures { rule_of result
        ≡ record (valued_rule (codes "listen")) { parser = Some (Signed (pos 1) (pos most_tcp_port)) } }
{
    Arg::new(alloc, LISTEN)
        .long(LISTEN)
        .value_name("PORT")
        .value_parser(value_parser!(u16).range(1..=i64::from(MOST_TCP_PORT)))
        .help("Serve connections to this port of 127.0.0.1")
}

fn ports<'a>(alloc: Global) -> Arg<'a>
    ensures { rule_of result
        ≡ record (new_rule (codes "PORT")) { range = Some (record { start_inclusive = 0; end_inclusive = usize_max }) } }
{
    Arg::new(alloc, PORT).num_args(0..).hide(true)
}

/// Parses the arguments by `clap`'s own specification. The first is the program's name. Fails with
/// an error that the specification allows, or for lack of memory. A request for help or for the
/// version is such an error too.
pub fn parse<'a, S: AsStr>(alloc: Global, words: &'a [S]) -> Result<ArgMatches<'a>, Error>
    ensures options { IfOk result IsProgramParse }
    ensures words { IfOk result (λ m. IsParse (map S.text words.entry.now) (rows_of (found_of m))) }
    ensures kinds { IfErr result (λ e. (kind_of e ≡ ErrorKind.OutOfMemory)
        ⊎ MayFail (map S.text words.entry.now) (kind_of e)) }
{
    command(alloc)?.try_get_matches_from(words)
}

/// Declares the options of the program, and the ports as its other arguments.
fn command<'a>(alloc: Global) -> Result<Command<'a>, AllocError>
    ensures { IfOk result (λ c. (roles : Bor (List (Bor (List ℕ)))) × AreRoles roles
        × (app_of c ≡ program roles)) }
{
    Command::new(alloc, "lldpa")
        .version(VERSION)
        .about(ABOUT)
        .override_usage(USAGE)
        .hide_possible_values(true)
        .after_help(MORE)
        .arg(number(
            alloc,
            MAX_NEIGHBORS,
            MOST_NEIGHBORS as u16,
            "32",
            MAX_NEIGHBORS_HELP,
        ))?
        .arg(text(alloc, MAC, "MAC", "02:00:00:00:00:01", MAC_HELP))?
        .arg(text(alloc, HOSTNAME, "TEXT", "localhost", HOSTNAME_HELP))?
        .arg(valued(alloc, MANAGEMENT, "IPV4", MANAGEMENT_HELP))?
        .arg(role(alloc))?
        .arg(number(
            alloc,
            TX_CREDIT_MAX,
            MOST_CREDIT as u16,
            "5",
            TX_CREDIT_MAX_HELP,
        ))?
        .arg(number(
            alloc,
            TX_FAST_INIT,
            MOST_FAST as u16,
            "4",
            TX_FAST_INIT_HELP,
        ))?
        .arg(number(
            alloc,
            REINIT_DELAY,
            MOST_REINIT as u16,
            "2",
            REINIT_DELAY_HELP,
        ))?
        .arg(receive_only(alloc))?
        .arg(listen(alloc))?
        .arg(number(alloc, CONNECTIONS, MOST_CONNECTIONS, "1", CONNECTIONS_HELP))?
        .arg(ports(alloc))
}

/// Reads the options from the parsed arguments, each number in its range. Fails with Mac exactly if
/// the MAC cannot be read, and with Management exactly if only the management address cannot.
pub fn read_options<'m>(matches: &'m ArgMatches<'_>) -> Result<Options<'m>, AddressFault>
    requires parse { IsProgramParse matches.now }
    ensures range { IfOk result (λ options. InRange (options_of options)) }
    ensures asks { IfOk result (λ options.
        Asks (rows_of (found_of matches.now)) (options_of options)) }
    ensures refused { IfErr result (HasBadAddress (rows_of (found_of matches.now))) }
{
    let Some(mac) = read_mac(given(matches, MAC)) else {
        return Err(AddressFault::Mac);
    };
    Ok(Options {
        ports: matches.get_strs(PORT).unwrap_or(&[]),
        mac,
        hostname: given(matches, HOSTNAME),
        management: management_of(matches)?,
        role: role_of(given(matches, ROLE)),
        max_neighbors: number_of(matches, MAX_NEIGHBORS),
        credit_max: number_of(matches, TX_CREDIT_MAX),
        fast_init: number_of(matches, TX_FAST_INIT),
        reinit: number_of(matches, REINIT_DELAY),
        receive_only: matches.get_flag(RECEIVE_ONLY),
    })
}

/// Returns the port and the number of connections from the arguments, or None if they do not ask to
/// listen.
pub fn listening_of(matches: &ArgMatches<'_>) -> Option<Listening>
    requires parse { IsProgramParse matches.now }
    ensures { AsksListening (one_text (found_of matches.now) (codes "listen"))
        (one_text (found_of matches.now) (codes "connections")) result }
{
    match matches.get_one::<u16>(LISTEN) {
        None => None,
        Some(port) => Some(Listening {
            port,
            connections: connections_of(matches),
        }),
    }
}

fn connections_of(matches: &ArgMatches<'_>) -> u16
    requires given { GivesNumber most_connections (codes "connections") matches.now }
    ensures { WritesNumber (one_text (found_of matches.now) (codes "connections")) result }
{
    matches.get_one::<u16>(CONNECTIONS).unwrap()
}

/// Returns the text of an option that has a default.
fn given<'a>(matches: &ArgMatches<'a>, name: &str) -> &'a str
    requires given { GivesText name.now matches.now }
    ensures value { first_value (found_of matches.now) name.now ≡ Some result.now }
{
    matches.get_str(name).unwrap()
}

/// Returns the number of an option that has a default.
fn number_of(matches: &ArgMatches<'_>, name: &str) -> u8
    requires given { (greatest : ℕ) × (greatest ≤ 255) × GivesNumber greatest name.now matches.now }
    ensures range { (greatest : ℕ) → greatest ≤ 255 → GivesNumber greatest name.now matches.now →
        (1 ≤ result) × (result ≤ greatest) }
    ensures value { option_map byte_or_zero (one_text (found_of matches.now) name.now)
        ≡ Some result }
{
    matches.get_one::<u8>(name).unwrap()
}

fn role_of(name: &str) -> Role
    ensures { result ≡ role_named name.now }
{
    match name {
        "bridge" => Role::Bridge,
        "router" => Role::Router,
        _ => Role::Station,
    }
}

fn management_of(matches: &ArgMatches<'_>) -> Result<Option<[u8; 4]>, AddressFault>
    ensures asked { IfOk result (AsksManagement
        (first_value (found_of matches.now) (codes "management"))) }
    ensures refused { IfErr result (λ fault. (fault ≡ AddressFault.Management)
        × IsBad IsDotted (first_value (found_of matches.now) (codes "management"))) }
{
    match matches.get_str(MANAGEMENT) {
        None => Ok(None),
        Some(text) => match read_ipv4(text) {
            Some(address) => Ok(Some(address)),
            None => Err(AddressFault::Management),
        },
    }
}
