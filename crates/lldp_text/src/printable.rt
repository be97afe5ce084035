//! Checks texts, such as hostnames and descriptions.
ghost use Rattle.std.specs.Prelude.{◌≡◌, ◌≤◌, IsTrue, nat_le, ◌&&◌, length};
ghost use Rattle.std.specs.List.{list_all};
ghost use Rattle.lldp_pdu.specs.Range.{most_text};
ghost use Rattle.lldp_text.specs.Text.{is_text};

use lldp_pdu::MOST_TEXT;

fn all_printable(text: &[u8]) -> bool
    ensures { result ≡ list_all (λ c. nat_le 32 c && nat_le c 126) text.now }
{
    for octet in text {
        if *octet < 0x20 || *octet > 0x7e {
            return false;
        }
    }
    true
}

/// Returns whether the text has at most 255 octets, each from the space to the tilde.
pub fn is_printable_text(text: &[u8]) -> bool
    ensures value { result ≡ is_text text.now }
    ensures short { IsTrue result → length text.now ≤ most_text }
{
    if text.len() > MOST_TEXT {
        return false;
    }
    all_printable(text)
}
