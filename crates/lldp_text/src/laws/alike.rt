//! Different neighbors are shown differently.
ghost use Rattle.std.specs.Prelude.{◌≡◌, ℕ, List, ⊤};
ghost use Rattle.lldp_pdu.specs.Msap.{IsIdentifier, MsapId};
ghost use Rattle.lldp_text.specs.Text.{escaped};
ghost use Rattle.lldp_text.specs.Identifier.{chassis_text, port_text};
ghost use Rattle.lldp_text.specs.Laws.Alike.{TellsApart, IsNameOfOctets, AreShownAlike};

/// Different texts are escaped differently, and different chassis IDs and port IDs are written
/// differently. So two neighbors that are shown alike have the same identifiers.
pub fn neighbors_are_never_shown_alike()
    ensures texts { TellsApart (λ _. ⊤) escaped }
    ensures chassis { TellsApart (λ body. IsIdentifier body) chassis_text }
    ensures ports { TellsApart (λ body. IsIdentifier body) port_text }
    ensures neighbors { (one other : MsapId) → IsNameOfOctets one → IsNameOfOctets other →
        AreShownAlike one other → one ≡ other }
{}
