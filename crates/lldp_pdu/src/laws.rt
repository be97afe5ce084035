//! Laws that the definitions obey, for every list of octets.
ghost use Rattle.std.specs.Prelude.{◌≡◌, ℕ, ◌+◌, ◌*◌, true, ◌<◌, ◌≤◌, ◌↔◌, List, ◌∷◌, ◌++◌, length, map, Some, None};
ghost use Rattle.std.specs.Iterator.{YieldsThen};
ghost use Rattle.lldp_pdu.specs.declared.tlv.Tlv.{Tlv};
ghost use Rattle.lldp_pdu.specs.Tlv.{TlvUnit, AreOctets};
ghost use Rattle.lldp_pdu.specs.Cut.{Cut, IsCut, cut};
ghost use Rattle.lldp_pdu.specs.View.{tlv_view, address_view, GivesFirstTlv};
ghost use Rattle.lldp_pdu.specs.declared.fields.Msap.{Msap};
ghost use Rattle.lldp_pdu.specs.declared.fields.Mgmt.{Mgmt};
ghost use Rattle.lldp_pdu.specs.declared.examination.Examined.TheVariants as Examined;
ghost use Rattle.lldp_pdu.specs.Examined.{Answers, IsWithin};
ghost use Rattle.lldp_pdu.specs.Laws.Told.{Leaves, Gives, HasFields};
ghost use Rattle.lldp_pdu.specs.Fault.{fault_of};
ghost use Rattle.lldp_pdu.specs.Lldpdu.{extent, seconds, ttl_of};
ghost use Rattle.lldp_pdu.specs.Info.{LldpInfo, info_of, IsInfo, TellsItself};
ghost use Rattle.lldp_pdu.specs.Draft.{Draft, CanPut, CanBuild, IsReadBack, put_fault, lldpdu_octets};
ghost use Rattle.lldp_pdu.specs.declared.fields.Caps.{Caps};
ghost use Rattle.lldp_pdu.specs.Msap.{IsIdentifier};
ghost use Rattle.lldp_pdu.specs.Capabilities.{caps_of};
ghost use Rattle.lldp_pdu.specs.ManagementAddress.{Address, address_of, IsSpelled};
ghost use Rattle.lldp_pdu.specs.Frame.{lldpdu_of};
ghost use Rattle.lldp_pdu.specs.Laws.CapsSpelling.{AreSpelled};
ghost use Rattle.lldp_pdu.specs.Laws.FrameForm.{HasForm};
ghost use Rattle.lldp_pdu.specs.Laws.KeptOnce.{AreKeptOnce, AreCounted};
ghost use Rattle.lldp_pdu.specs.Laws.PutFaults.{IsRefused};
ghost use Rattle.lldp_pdu.specs.Laws.SoundForm.{IsSound, HasFaults};
ghost use Rattle.lldp_pdu.specs.WellFormed.{is_well_formed};
ghost use Rattle.lldp_pdu.specs.Range.{most_octets, most_text};

/// Each list of octets has exactly one cut into complete TLVs and a rest.
#[tactic(auto, using(crate::proofs::Cuts::cut_is_cut, crate::proofs::Cuts::only_cut))]
pub fn octets_have_one_cut()
    ensures is_cut { (octets : List ℕ) → AreOctets octets → IsCut octets (cut octets) }
    ensures only { (octets : List ℕ) (c : Cut) → AreOctets octets → IsCut octets c →
        c ≡ cut octets }
{}

/// Calling `Tlvs::next` until it returns None yields the TLVs of the cut and leaves the cut's rest.
pub fn tlvs_give_the_cut()
    ensures tlvs { (octets left : List ℕ) (given : List Tlv) →
        YieldsThen GivesFirstTlv octets given None left → map tlv_view given ≡ (cut octets).tlvs }
    ensures rest { (octets left : List ℕ) (given : List Tlv) →
        YieldsThen GivesFirstTlv octets given None left → left ≡ (cut octets).rest }
{}

/// An LLDPDU is sound exactly if it begins with a Chassis ID and a Port ID of 2 to 256 octets each
/// and a Time To Live of 2 or more octets and, unless its TTL is 0, no other TLV before its End Of
/// LLDPDU has one of these types. Any other LLDPDU has the fault of the first of these three TLVs
/// that is wrong, or Repeated if none is wrong. The TTL is in the first two octets of its TLV.
#[tactic(auto, using(crate::proofs::SoundForms::sound_has_form, crate::proofs::SoundForms::form_is_sound, crate::proofs::SoundForms::faults_are))]
pub fn sound_lldpdus_have_their_form()
    ensures sound { (octets : List ℕ) → (fault_of octets ≡ None) ↔ IsSound octets }
    ensures faults { (octets chassis port ttl : List ℕ) (u : TlvUnit) (us : List TlvUnit) →
        HasFaults octets chassis port ttl u us }
    ensures seconds { (high low : ℕ) (more : List ℕ) →
        seconds (high ∷ low ∷ more) ≡ 256 * high + low }
{}

/// A TLV after the mandatory ones is kept exactly if it is well formed and, for types 4 to 7, no
/// earlier well-formed TLV has its type. The kept TLVs stay in their order. All others are
/// discarded, and so is an incomplete TLV.
pub fn later_tlvs_are_kept_once()
    ensures kept { (earlier us : List TlvUnit) (u : TlvUnit) → AreKeptOnce earlier u us }
    ensures counted { (octets : List ℕ) → AreCounted octets }
{}

/// The extent of a sound LLDPDU with a TTL above 0 is a sound LLDPDU with the same contents, except
/// that fewer TLVs may be discarded.
#[tactic(auto, using(crate::proofs::Telling::tells_itself))]
pub fn extents_tell_the_same()
    ensures info { (octets : List ℕ) → AreOctets octets → fault_of octets ≡ None →
        0 < ttl_of octets → IsInfo (info_of octets) }
    ensures again { (octets : List ℕ) → AreOctets octets → fault_of octets ≡ None →
        0 < ttl_of octets → TellsItself (info_of octets) }
{}

/// Examining an LLDPDU of octets answers Shutdown with its name if its TTL is 0, and otherwise an
/// Info whose fields are those of the LLDPDU, with an extent that is no longer than the LLDPDU.
pub fn examined_lldpdus_are_told()
    ensures shutdown { (octets : List ℕ) (name : Msap) → Answers octets (Examined.Shutdown name) →
        Leaves octets name }
    ensures info { (octets : List ℕ) (info : LldpInfo) → Answers octets (Examined.Info info) →
        IsWithin octets (Examined.Info info) → Gives octets info }
{}

/// An LLDPDU begins with its extent.
#[tactic(auto, using(crate::proofs::Whole::extent_front))]
pub fn lldpdus_begin_with_extents()
    ensures { (octets : List ℕ) → AreOctets octets →
        (more : List ℕ) × (octets ≡ extent octets ++ more) }
{}

/// `lldpdu_of` returns an LLDPDU exactly if the frame is 01-80-C2-00-00-0E, a source address of six
/// octets, 88-CC and this LLDPDU, which has at most 1,500 octets.
pub fn lldp_frames_have_their_form()
    ensures { (frame lldpdu : List ℕ) → (lldpdu_of frame ≡ Some lldpdu) ↔ HasForm frame lldpdu }
{}

/// A TLV can be put exactly if no check of `Builder::put` fails. The fault is that of the first
/// check that fails: of the type, then of the body, then of the room.
#[tactic(auto, using(crate::proofs::Drafts::can_put, crate::proofs::Drafts::passes, crate::proofs::Refusing::is_refused))]
pub fn checked_tlvs_are_put()
    ensures put { (draft : Draft) (tlv : TlvUnit) →
        CanPut draft tlv ↔ (put_fault draft tlv ≡ None) }
    ensures refused { (draft : Draft) (tlv : TlvUnit) → IsRefused draft tlv }
{}

/// An LLDPDU that a `Builder` can build has at most 1,500 octets, and examining it returns the
/// contents that it was built from. This also holds if its octets were written without a `Builder`.
pub fn drafts_are_read_back()
    ensures short { (draft : Draft) → CanBuild draft → length (lldpdu_octets draft) ≤ most_octets }
    ensures read_back { (draft : Draft) → CanBuild draft → IsReadBack draft (lldpdu_octets draft) }
{}

/// `address_of` returns an address exactly if its fields are in range and the body encodes it. A
/// body that was read has the fields that were given.
pub fn management_addresses_are_spelled()
    ensures spelled { (body : List ℕ) (address : Address) → AreOctets body →
        (address_of body ≡ Some address) ↔ IsSpelled body address }
    ensures given { (body : List ℕ) (given : Mgmt) → AreOctets body →
        address_of body ≡ Some (address_view given) → HasFields body given }
{}

/// `caps_of` returns capabilities exactly if the body encodes them in four octets and every enabled
/// bit is available.
pub fn capabilities_are_spelled()
    ensures { (body : List ℕ) (caps : Caps) → AreOctets body →
        (caps_of body ≡ Some caps) ↔ AreSpelled body caps }
{}

/// Exactly these bodies are well formed: 2 to 256 octets for a Chassis ID or a Port ID, 2 or more
/// for a Time To Live, at most 255 for the three text types, 4 or more for an organizationally
/// specific TLV, an encoding of System Capabilities or a Management Address (see their laws above),
/// and any body for an End Of LLDPDU or a reserved type, 9 to 126.
pub fn types_decide_which_bodies_are_well_formed()
    ensures end { (body : List ℕ) → is_well_formed (record { kind = 0; body = body }) ≡ true }
    ensures identifiers { (kind : ℕ) (body : List ℕ) → 1 ≤ kind → kind ≤ 2 →
        (is_well_formed (record { kind = kind; body = body }) ≡ true) ↔ IsIdentifier body }
    ensures ttl { (body : List ℕ) →
        (is_well_formed (record { kind = 3; body = body }) ≡ true) ↔ 2 ≤ length body }
    ensures texts { (kind : ℕ) (body : List ℕ) → 4 ≤ kind → kind ≤ 6 →
        (is_well_formed (record { kind = kind; body = body }) ≡ true) ↔ length body ≤ most_text }
    ensures capabilities { (body : List ℕ) → AreOctets body →
        (is_well_formed (record { kind = 7; body = body }) ≡ true)
        ↔ ((caps : Caps) × AreSpelled body caps) }
    ensures addresses { (body : List ℕ) → AreOctets body →
        (is_well_formed (record { kind = 8; body = body }) ≡ true)
        ↔ ((address : Address) × IsSpelled body address) }
    ensures reserved { (kind : ℕ) (body : List ℕ) → 9 ≤ kind → kind ≤ 126 →
        is_well_formed (record { kind = kind; body = body }) ≡ true }
    ensures specific { (body : List ℕ) →
        (is_well_formed (record { kind = 127; body = body }) ≡ true) ↔ 4 ≤ length body }
{}
