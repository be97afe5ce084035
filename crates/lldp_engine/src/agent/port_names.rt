//! Checks of the names of ports.
ghost use Rattle.std.specs.Prelude.{◌≡◌, map};
ghost use Rattle.std.specs.List.{list_any, list_all};
ghost use Rattle.std.specs.Str.{bytes_eq};
ghost use Rattle.lldp_engine.specs.Options.{is_name_octet, is_port_name, has_same};

/// The most octets of the name of a port.
pub const MOST_NAME: usize = 15;

fn may_stand_in_name(octet: u8) -> bool
    ensures { result ≡ is_name_octet octet }
{
    matches!(octet, b'a'..=b'z' | b'A'..=b'Z' | b'/'..=b':' | b'-' | b'_')
}

fn all_name_octets(name: &[u8]) -> bool
    ensures { result ≡ list_all is_name_octet name.now }
{
    for octet in name {
        if !may_stand_in_name(*octet) {
            return false;
        }
    }
    true
}

fn can_name_port(name: &str) -> bool
    ensures { result ≡ is_port_name name.now }
{
    if name.len() == 0 || name.len() > MOST_NAME {
        return false;
    }
    all_name_octets(name.as_bytes())
}

/// Returns whether every name is valid for a port.
pub(crate) fn all_port_names(names: &[&str]) -> bool
    ensures { result ≡ list_all is_port_name (map (λ n. n.now) names.now) }
{
    for name in names {
        if !can_name_port(name) {
            return false;
        }
    }
    true
}

fn contains(names: &[&str], name: &str) -> bool
    ensures { result ≡ list_any (λ other. bytes_eq other name.now) (map (λ n. n.now) names.now) }
{
    for other in names {
        if *other == name {
            return true;
        }
    }
    false
}

/// Returns whether a name occurs twice.
pub(crate) fn names_repeat(names: &[&str]) -> bool
    ensures { result ≡ has_same (map (λ n. n.now) names.now) }
{
    for (i, name) in names.iter().enumerate() {
        if contains(&names[i + 1..], name) {
            return true;
        }
    }
    false
}
