//! Laws that the definitions obey, for every list of calls.
ghost use Rattle.std.specs.Prelude.{◌≡◌, ℕ, false, not, ◌+◌, ◌-◌, ◌*◌, ◌^◌, ◌<◌, ◌≤◌, ◌↔◌, ◌⊎◌, max, List, [], ◌∷◌, ◌++◌, length, None};
ghost use Rattle.std.specs.List.{Contains, AllPairs, AllByRecursion, filter};
ghost use Rattle.lldp_pdu.specs.Tlv.{AreOctets};
ghost use Rattle.lldp_pdu.specs.Msap.{MsapId};
ghost use Rattle.lldp_pdu.specs.Lldpdu.{extent, ttl_of, msap_of};
ghost use Rattle.lldp_pdu.specs.Fault.{fault_of};
ghost use Rattle.lldp_pdu.specs.Kept.{kept_of};
ghost use Rattle.lldp_table.specs.declared.learned.Learned.TheVariants.{New, Refreshed, Dropped};
ghost use Rattle.lldp_table.specs.Laws.Changes.{a_tick_before, just_stored, sets_limit, is_tick, HoldsOctets, HoldsOthers};
ghost use Rattle.lldp_table.specs.declared.learned.Outcome.TheVariants.{Added, Changed, Repeated, NoRoom};
ghost use Rattle.lldp_table.specs.Outcomes.{learned_of, octets_held, store_outcome, outcome_between};
ghost use Rattle.lldp_table.specs.Events.{Call, learn, forget, purge, tick, set_limit, Neighbor, TableEvent, ticked, aged_out, answer, event_of, events_of, neighbors, too_many_left};
ghost use Rattle.lldp_table.specs.Contents.{Contents, holds_name, IsExtent, IsHeld, IsSound};
ghost use Rattle.lldp_table.specs.Code.Stored.{tag_of};
ghost use Rattle.lldp_table.specs.Code.Steps.{learn_answer, after_learn, newly_opened, table_after};
ghost use Rattle.lldp_table.specs.Standing.{Stands, ForEachCalls, IsPossible, ArePossible, table_of};
ghost use Rattle.lldp_table.specs.Positions.{IsLastStored, IsLive, HasRoom, IsNewBefore, WasDropped};
ghost use Rattle.lldp_table.specs.declared.limits.TheConstants.{MOST_NEIGHBORS};
ghost use Rattle.lldp_pdu.specs.Range.{most_octets};
ghost use Rattle.lldp_table.specs.Ranges.{most_neighbors};

/// If a table matches a list of calls (`Stands`) and one more call is possible (`IsPossible`), the
/// table after that call matches the list with that call.
#[tactic(auto, using(crate::proofs::Standing::Calls::carries))]
pub fn calls_carry_standing()
    ensures { (table : Contents) (call : Call) → IsPossible table call →
        ForEachCalls table (λ opened calls. Stands opened (call ∷ calls) (table_after table call)) }
{}

/// A table opened with a limit of 1 to 128 matches the empty list of calls. If a table matches a
/// list of calls, its results are those that the definitions give for the list. Each call adds one
/// event. The neighbors that a tick ages out plus those that remain are as many as before the tick.
pub fn calls_tell_standing_tables()
    ensures opened { (opened : ℕ) → 0 < opened → opened ≤ most_neighbors →
        Stands opened [] (newly_opened opened) }
    ensures learned { (table : Contents) (name : MsapId) →
        ForEachCalls table (λ opened calls. learn_answer table name
        ≡ answer opened name (events_of opened calls)) }
    ensures event { (opened : ℕ) (call : Call) (calls : List Call) →
        events_of opened (call ∷ calls)
        ≡ event_of opened call (events_of opened calls) ∷ events_of opened calls }
    ensures aged { (past : List TableEvent) →
        aged_out past + length (neighbors (ticked ∷ past)) ≡ length (neighbors past) }
{}

/// A table opened with a limit of 1 to 128 is sound, and a sound table is still sound after each
/// possible call.
pub fn calls_leave_sound_tables()
    ensures opened { (limit : ℕ) → 0 < limit → limit ≤ most_neighbors →
        IsSound (newly_opened limit) }
    ensures after { (table : Contents) (call : Call) → IsSound table → IsPossible table call →
        IsSound (table_after table call) }
{}

/// The extent of a sound LLDPDU with a TTL above 0 and at most 1,500 octets can be stored. A stored
/// extent has at least twelve octets, plus two for each kept TLV.
#[tactic(auto, using(crate::proofs::Extents::lldpdu_is_extent, crate::proofs::Extents::kept_is_short))]
pub fn extents_can_be_stored()
    ensures stored { (pdu : List ℕ) → AreOctets pdu → fault_of pdu ≡ None → 0 < ttl_of pdu →
        length pdu ≤ most_octets →
        IsExtent (msap_of pdu) (ttl_of pdu) (extent pdu) }
    ensures few { (neighbor : Neighbor) → IsHeld neighbor →
        12 + 2 * length (kept_of neighbor.octets) ≤ length neighbor.octets }
{}

/// After a list of calls, exactly the unexpired last stored frame of each MSAP identifier is held:
/// since that frame, no call stored another with this identifier, forgot the identifier or purged
/// the table, and fewer ticks than its TTL passed. The frames are in the order in which their
/// identifiers were last added. If the table was opened with a limit of 1 to 128 and each call was
/// possible, the resulting table is the only one that matches the list. It is sound: it holds at
/// most as many neighbors as the limit, with at most 1,500 octets each.
pub fn tables_hold_last_stored_frames()
    ensures held { (opened : ℕ) (calls : List Call) (neighbor : Neighbor) →
        Contains (neighbors (events_of opened calls)) neighbor
        ↔ IsLastStored (events_of opened calls) neighbor }
    ensures order { (opened : ℕ) (calls : List Call) →
        AllPairs (IsNewBefore (events_of opened calls)) (neighbors (events_of opened calls)) }
    ensures sound { (opened : ℕ) (calls : List Call) → 0 < opened → opened ≤ most_neighbors →
        ArePossible opened calls → IsSound (table_of opened calls) }
    ensures stands { (opened : ℕ) (calls : List Call) → 0 < opened → opened ≤ most_neighbors →
        ArePossible opened calls → Stands opened calls (table_of opened calls) }
{}

/// A frame is Refreshed exactly if a neighbor with its MSAP identifier is live, New exactly if none
/// is and the number of live neighbors is below the current limit, and otherwise Dropped.
#[tactic(auto, using(crate::proofs::Standing::Lists::refreshed_is, crate::proofs::Standing::Lists::new_is, crate::proofs::Standing::Lists::dropped_is))]
pub fn live_neighbors_decide_answers()
    ensures refreshed { (opened : ℕ) (calls : List Call) (name : MsapId) →
        (answer opened name (events_of opened calls) ≡ Refreshed)
        ↔ IsLive (events_of opened calls) name }
    ensures new { (opened : ℕ) (calls : List Call) (name : MsapId) →
        (answer opened name (events_of opened calls) ≡ New)
        ↔ ((¬ (IsLive (events_of opened calls) name)) × HasRoom opened (events_of opened calls)) }
    ensures dropped { (opened : ℕ) (calls : List Call) (name : MsapId) →
        (answer opened name (events_of opened calls) ≡ Dropped)
        ↔ ((¬ (IsLive (events_of opened calls) name))
        × (¬ (HasRoom opened (events_of opened calls)))) }
{}

/// The remaining ticks of the too-many timer are the maximum of the remaining ticks of the frames
/// dropped since the last purge, or 0 if no such frame has any left.
#[tactic(auto, using(crate::proofs::Live::Order::greatest_dropped, crate::proofs::Live::Order::none_dropped_above))]
pub fn timers_keep_the_greatest_dropped()
    ensures one { (events : List TableEvent) → 0 < too_many_left events →
        WasDropped events (too_many_left events) }
    ensures most { (events : List TableEvent) (left : ℕ) → WasDropped events left →
        left ≤ too_many_left events }
    ensures one_held { (table : Contents) → 0 < table.too_many_left →
        ForEachCalls table (λ opened calls.
        WasDropped (events_of opened calls) table.too_many_left) }
    ensures most_held { (table : Contents) (left : ℕ) → ForEachCalls table (λ opened calls.
        WasDropped (events_of opened calls) left → left ≤ table.too_many_left) }
{}

/// `forget`, called for instance for a frame with a TTL of 0, removes the neighbor with this MSAP
/// identifier and no other, and changes nothing else.
pub fn forgotten_names_go_alone()
    ensures held { (opened : ℕ) (calls : List Call) (name : MsapId) (neighbor : Neighbor) →
        Contains (table_of opened (forget name ∷ calls)).neighbors neighbor
        ↔ (Contains (table_of opened calls).neighbors neighbor × (¬ (neighbor.msap ≡ name))) }
    ensures others { (opened : ℕ) (calls : List Call) (name : MsapId) →
        record (table_of opened (forget name ∷ calls)) { neighbors = (table_of opened calls).neighbors; gone = (table_of opened calls).gone }
        ≡ table_of opened calls }
{}

/// A tick removes exactly the neighbors that had one tick left. The others and the too-many timer
/// then have one tick less, and the limit stays the same.
pub fn ticks_take_expired_neighbors_alone()
    ensures held { (opened : ℕ) (calls : List Call) (neighbor : Neighbor) →
        Contains (table_of opened (tick ∷ calls)).neighbors neighbor
        ↔ ((0 < neighbor.left)
        × Contains (table_of opened calls).neighbors (a_tick_before neighbor)) }
    ensures timer { (opened : ℕ) (calls : List Call) →
        (table_of opened (tick ∷ calls)).too_many_left ≡ (table_of opened calls).too_many_left - 1 }
    ensures limit { (opened : ℕ) (calls : List Call) →
        (table_of opened (tick ∷ calls)).limit ≡ (table_of opened calls).limit }
{}

/// No neighbor can be read as gone unless the last call was a tick. After a tick exactly those can
/// be read that the table held before and does not hold after, in the order in which they were last
/// added, each as it was held.
pub fn gone_neighbors_were_held_and_are_not()
    ensures held { (opened : ℕ) (calls : List Call) (neighbor : Neighbor) →
        Contains (table_of opened (tick ∷ calls)).gone neighbor
        ↔ (Contains (table_of opened calls).neighbors neighbor
        × (holds_name (table_of opened (tick ∷ calls)) neighbor.msap ≡ false)) }
    ensures order { (opened : ℕ) (calls : List Call) → (table_of opened (tick ∷ calls)).gone
        ≡ filter (λ neighbor. not (holds_name (table_of opened (tick ∷ calls)) neighbor.msap))
        (table_of opened calls).neighbors }
    ensures number { (opened : ℕ) (calls : List Call) →
        length (table_of opened (tick ∷ calls)).gone ≡ aged_out (events_of opened calls) }
    ensures none { (opened : ℕ) (calls : List Call) (call : Call) → is_tick call ≡ false →
        (table_of opened (call ∷ calls)).gone ≡ [] }
{}

/// A frame that has a TTL above 0 and is not dropped is held with its whole TTL left. It replaces
/// the frame held for its MSAP identifier, if any; nothing else changes.
pub fn stored_frames_replace_their_name_alone()
    ensures held { (opened : ℕ) (calls : List Call) (name : MsapId) (ttl : ℕ) (octets : List ℕ)
        (neighbor : Neighbor) → 0 < ttl → ¬ (answer opened name (events_of opened calls) ≡ Dropped) →
        Contains (table_of opened (learn name ttl octets ∷ calls)).neighbors neighbor
        ↔ ((neighbor ≡ just_stored name ttl octets)
        ⊎ (Contains (table_of opened calls).neighbors neighbor × (¬ (neighbor.msap ≡ name)))) }
    ensures others { (opened : ℕ) (calls : List Call) (name : MsapId) (ttl : ℕ) (octets : List ℕ) →
        ¬ (answer opened name (events_of opened calls) ≡ Dropped) →
        record (table_of opened (learn name ttl octets ∷ calls)) { neighbors = (table_of opened calls).neighbors; gone = (table_of opened calls).gone }
        ≡ table_of opened calls }
{}

/// `store` says Added exactly if `learn` says New, and NoRoom exactly if it says Dropped. It says
/// Repeated exactly if a neighbor with the frame's MSAP identifier is held with the same octets,
/// and Changed exactly if one is held with others. The octets held before and after say the same.
#[tactic(auto, using(crate::proofs::Outcomes::stores_tell_what_they_did))]
pub fn stores_tell_what_they_did()
    ensures added { (table : Contents) (name : MsapId) (octets : List ℕ) →
        (store_outcome table name octets ≡ Added) ↔ (learn_answer table name ≡ New) }
    ensures no_room { (table : Contents) (name : MsapId) (octets : List ℕ) →
        (store_outcome table name octets ≡ NoRoom) ↔ (learn_answer table name ≡ Dropped) }
    ensures repeated { (table : Contents) (name : MsapId) (octets : List ℕ) → IsSound table →
        (store_outcome table name octets ≡ Repeated) ↔ HoldsOctets table name octets }
    ensures changed { (table : Contents) (name : MsapId) (octets : List ℕ) → IsSound table →
        (store_outcome table name octets ≡ Changed) ↔ HoldsOthers table name octets }
    ensures between { (table : Contents) (name : MsapId) (octets : List ℕ) (ttl : ℕ) →
        store_outcome table name octets ≡ outcome_between (octets_held table name)
        (octets_held (after_learn table name ttl octets) name) }
    ensures learned { (table : Contents) (name : MsapId) (octets : List ℕ) →
        learned_of (store_outcome table name octets) ≡ learn_answer table name }
{}

/// A dropped frame extends the too-many timer to at least the frame's TTL. Nothing else changes.
#[tactic(auto, using(crate::proofs::Live::Calls::learn_dropped))]
pub fn dropped_frames_change_the_timer_alone()
    ensures { (opened : ℕ) (calls : List Call) (name : MsapId) (ttl : ℕ) (octets : List ℕ) →
        answer opened name (events_of opened calls) ≡ Dropped →
        table_of opened (learn name ttl octets ∷ calls)
        ≡ record (table_of opened calls) { gone = []; too_many_left = max (table_of opened calls).too_many_left ttl } }
{}

/// A purge removes all neighbors and ends the too-many timer; the limit stays the same.
#[tactic(auto, using(crate::proofs::Live::Calls::purge_leaves))]
pub fn purges_end_timers_too()
    ensures { (opened : ℕ) (calls : List Call) → table_of opened (purge ∷ calls)
        ≡ record (table_of opened calls) { neighbors = []; gone = []; too_many_left = 0 } }
{}

/// A limit applies from the call that sets it until the next such call. The limit given at opening
/// applies until the first one. Setting a limit changes nothing else.
pub fn limits_last_until_the_next()
    ensures set { (opened limit : ℕ) (later calls : List Call) →
        AllByRecursion (λ call. sets_limit call ≡ false) later →
        (table_of opened (later ++ set_limit limit ∷ calls)).limit ≡ limit }
    ensures opened { (opened : ℕ) (calls : List Call) →
        AllByRecursion (λ call. sets_limit call ≡ false) calls →
        (table_of opened calls).limit ≡ opened }
    ensures others { (opened limit : ℕ) (calls : List Call) →
        table_of opened (set_limit limit ∷ calls) ≡ record (table_of opened calls) { limit = limit; gone = [] } }
{}

/// If two MSAP identifiers, written as the chassis ID followed by the port ID, differ in exactly
/// one octet, their tags differ. The tags affect only speed.
#[tactic(auto, using(crate::proofs::Slots::Tags::same_octet))]
pub fn names_one_octet_apart_have_tags_apart()
    ensures { (one other : MsapId) (front back : List ℕ) (a b : ℕ) →
        one.chassis ++ one.port ≡ front ++ a ∷ back → other.chassis ++ other.port ≡ front ++ b ∷ back →
        a < 2 ^ 8 → b < 2 ^ 8 → tag_of one ≡ tag_of other → a ≡ b }
{}

/// `MOST_NEIGHBORS`, the most neighbors that a table can hold, is 128.
pub fn tables_have_room_for_128()
    ensures { MOST_NEIGHBORS ≡ most_neighbors }
{}
