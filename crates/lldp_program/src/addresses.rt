//! Reads the addresses in the program's options.
ghost use Rattle.std.specs.Prelude.{ℕ, List, MatchOption};
ghost use Rattle.std.specs.Net.Grammar.{IsDotted};
ghost use Rattle.lldp_program.specs.CommandLine.Addresses.{IsMac};

use std::net::Ipv4Addr;

/// Reads six pairs of hexadecimal digits of either case, joined by `:`. Returns None if the text is
/// anything else.
pub fn read_mac(text: &str) -> Option<[u8; 6]>
    ensures { MatchOption result ((mac : List ℕ) → ¬ (IsMac text.now mac)) (IsMac text.now) }
{
    let [
        a,
        b,
        b':',
        c,
        d,
        b':',
        e,
        f,
        b':',
        g,
        h,
        b':',
        i,
        j,
        b':',
        k,
        l,
    ] = *text.as_bytes()
    else {
        return None;
    };
    let mut mac = [0; 6];
    hex::decode_to_slice([a, b, c, d, e, f, g, h, i, j, k, l], &mut mac).ok()?;
    Some(mac)
}

/// Reads four numbers from 0 to 255 without leading zeros, joined by `.`. Returns None if the text
/// is anything else.
pub fn read_ipv4(text: &str) -> Option<[u8; 4]>
    ensures { MatchOption result ((octets : List ℕ) →
        ¬ (IsDotted text.now octets)) (IsDotted text.now) }
{
    let address: Ipv4Addr = text.parse().ok()?;
    Some(address.octets())
}
