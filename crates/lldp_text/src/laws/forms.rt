//! How each value is written, whatever its octets.
ghost use Rattle.std.specs.Prelude.{◌≡◌, ℕ, true, ◌↔◌, List};
ghost use Rattle.std.specs.List.{join_with_byte};
ghost use Rattle.lldp_pdu.specs.declared.fields.Caps.{Caps};
ghost use Rattle.lldp_pdu.specs.ManagementAddress.{Address};
ghost use Rattle.lldp_text.specs.Text.{is_text};
ghost use Rattle.lldp_text.specs.Capabilities.{capability_names, capabilities_text};
ghost use Rattle.lldp_text.specs.Identifier.{chassis_text, port_text};
ghost use Rattle.lldp_text.specs.Laws.Forms.{IsText, IsEscaped, IsJoined, IsManaged, IsIdentified, shown_from, HasKeys, HasTextKeys};

/// Octets are a text exactly if there are at most 255 and each is from the space to the tilde.
pub fn texts_are_printable()
    ensures { (text : List ℕ) → (is_text text ≡ true) ↔ IsText text }
{}

/// Texts, addresses, all sixteen capabilities, identifiers and kept TLVs of every type are written
/// as stated here, whatever their octets.
pub fn values_have_their_forms()
    ensures texts { (octet : ℕ) (text : List ℕ) → IsEscaped octet text }
    ensures addresses { (a b c d : ℕ) (octets : List ℕ) → IsJoined a b c d octets }
    ensures capabilities { (caps : Caps) → capabilities_text caps
        ≡ join_with_byte 0x2c (shown_from caps 0 capability_names) }
    ensures management { (address : Address) → IsManaged address }
    ensures chassis { (subtype family : ℕ) (octets : List ℕ) →
        IsIdentified 4 5 chassis_text subtype family octets }
    ensures ports { (subtype family : ℕ) (octets : List ℕ) →
        IsIdentified 3 4 port_text subtype family octets }
    ensures identified { (text : List ℕ) → HasTextKeys text }
    ensures kept { (body : List ℕ) → HasKeys body }
{}
