//! Tests the worked examples of a table, call by call, and how much memory a table needs.
ghost use Rattle.std.specs.Prelude.{◌≤◌, ◌<◌, ◌+◌, ◌*◌, length};

use linked_list_allocator::LocalHeap;
use lldp_pdu::{Examined, Info, examine};
use lldp_table::*;
use std::alloc::{Allocator, Global};
use std::process::Abort;
use std::test::Fail;

/// Returns an LLDPDU: a Chassis ID with the MAC 00:11:22:33:44:55, a Port ID with the interface
/// name `eth` and this octet, a TTL and an End.
fn lldpdu(port: u8, ttl: u8) -> [u8; 22] {
    [
        0x02, 0x07, 0x04, 0x00, 0x11, 0x22, 0x33, 0x44, 0x55, 0x04, 0x05, 0x05, b'e', b't', b'h',
        port, 0x06, 0x02, 0x00, ttl, 0x00, 0x00,
    ]
}

fn told<'a>(rt: &impl Abort, pdu: &'a [u8]) -> Info<'a>
    requires { length pdu.now ≤ 1500 }
    ensures { length result.octets ≤ 1500 }
{
    match examine(pdu) {
        Ok(Examined::Info(info)) => info,
        Ok(Examined::Shutdown(_)) => panic!(rt; "a shutdown"),
        Err(_) => panic!(rt; "a fault"),
    }
}

/// Checks that the neighbor at place `i` has this LLDPDU, with this many ticks left.
fn expect_entry<A: Allocator>(rt: &impl Abort, table: &Table<A>, i: u8, pdu: &[u8; 22], left: u16) {
    assert!(rt; i < table.len());
    let entry = table.entry(i);
    assert_eq!(rt; entry.octets(), &pdu[..20]);
    assert_eq!(rt;
        (entry.msap().chassis, entry.msap().port),
        (&pdu[2..9], &pdu[11..16])
    );
    assert_eq!(rt; (entry.ttl(), entry.left()), (u16::from(pdu[19]), left));
    assert!(rt; entry.kept().next().is_none());
}

/// Checks that the neighbor at place `i` of those that aged out has this LLDPDU.
fn expect_gone<A: Allocator>(rt: &impl Abort, table: &Table<A>, i: u8, pdu: &[u8; 22]) {
    assert!(rt; i < table.gone());
    let entry = table.gone_entry(i);
    assert_eq!(rt; (entry.octets(), entry.left()), (&pdu[..20], 1));
}

/// Passes an LLDPDU to the table, and checks what the table does with it.
fn learns<A: Allocator>(rt: &impl Abort, table: &mut Table<A>, pdu: &[u8; 22], answer: Learned) {
    assert_eq!(rt; table.learn(&told(rt, pdu)), answer);
}

/// Removes the neighbor of the LLDPDU, and checks whether it was held.
fn forgets<A: Allocator>(rt: &impl Abort, table: &mut Table<A>, pdu: &[u8; 22], held: bool) {
    assert_eq!(rt; table.forget(&told(rt, pdu).msap()), held);
}

/// Passes a tick to the table, which accesses stored times at most twice, and twice more for each
/// neighbor that ages out. No other crate needs this promise.
fn tick<A: Allocator>(table: &mut Table<A>) -> u8
    ensures { table.new.accesses ≤ table.old.accesses + 2 * result + 2 }
{
    table.tick()
}

/// Passes this many ticks to the table, and checks that this many neighbors age out at each tick.
fn ticks<A: Allocator>(rt: &impl Abort, table: &mut Table<A>, count: u8, gone: u8) {
    for _ in 0..count {
        assert_eq!(rt; tick(table), gone);
    }
}

/// Checks how many neighbors and octets the table holds, and whether it reports too many neighbors.
fn expect_held<A: Allocator>(rt: &impl Abort, table: &Table<A>, held: (u8, u32, bool)) {
    assert_eq!(rt; (table.len(), table.octets(), table.too_many()), held);
}

#[test]
fn table_of_one(rt: HostRuntime) -> Result<(), Fail> {
    let (a, b) = (lldpdu(b'0', 120), lldpdu(b'1', 120));
    let mut table = Table::open(rt.alloc(), 1)?;
    assert_eq!(rt; (table.len(), table.limit(), table.capacity()), (0, 1, 1));
    assert_eq!(rt; table.soonest(), None);
    learns(&rt, &mut table, &a, Learned::New);
    learns(&rt, &mut table, &b, Learned::Dropped);
    assert!(rt; table.too_many());
    learns(&rt, &mut table, &a, Learned::Refreshed);
    table.purge();
    expect_held(&rt, &table, (0, 0, false));
    learns(&rt, &mut table, &b, Learned::New);
    forgets(&rt, &mut table, &a, false);
    forgets(&rt, &mut table, &b, true);
    forgets(&rt, &mut table, &b, false);
    ticks(&rt, &mut table, 1, 0);
    Ok(())
}

#[test]
fn refresh_to_an_earlier_expiry(rt: HostRuntime) -> Result<(), Fail> {
    let (a, c, d) = (lldpdu(b'0', 120), lldpdu(b'2', 9), lldpdu(b'3', 5));
    let mut table = Table::open(rt.alloc(), 3)?;
    learns(&rt, &mut table, &a, Learned::New);
    learns(&rt, &mut table, &c, Learned::New);
    learns(&rt, &mut table, &d, Learned::New);
    learns(&rt, &mut table, &lldpdu(b'0', 1), Learned::Refreshed);
    ticks(&rt, &mut table, 1, 1);
    expect_held(&rt, &table, (2, 40, false));
    expect_entry(&rt, &table, 0, &c, 8);
    expect_entry(&rt, &table, 1, &d, 4);
    assert_eq!(rt; table.soonest(), Some(4));
    ticks(&rt, &mut table, 3, 0);
    ticks(&rt, &mut table, 1, 1);
    learns(&rt, &mut table, &a, Learned::New);
    expect_held(&rt, &table, (2, 40, false));
    expect_entry(&rt, &table, 0, &c, 4);
    expect_entry(&rt, &table, 1, &a, 120);
    Ok(())
}

#[test]
fn equal_expiries(rt: HostRuntime) -> Result<(), Fail> {
    let (a, b, c) = (lldpdu(b'0', 120), lldpdu(b'1', 120), lldpdu(b'2', 121));
    let mut table = Table::open(rt.alloc(), 3)?;
    learns(&rt, &mut table, &a, Learned::New);
    learns(&rt, &mut table, &c, Learned::New);
    learns(&rt, &mut table, &b, Learned::New);
    learns(&rt, &mut table, &a, Learned::Refreshed);
    ticks(&rt, &mut table, 119, 0);
    assert_eq!(rt; table.gone(), 0);
    ticks(&rt, &mut table, 1, 2);
    expect_held(&rt, &table, (1, 20, false));
    expect_entry(&rt, &table, 0, &c, 1);
    expect_gone(&rt, &table, 0, &a);
    expect_gone(&rt, &table, 1, &b);
    learns(&rt, &mut table, &c, Learned::Refreshed);
    assert_eq!(rt; table.gone(), 0);
    Ok(())
}

/// Checks that opening fails if there is less room than for all neighbors, and leaves nothing
/// allocated.
fn refuses_less(rt: &impl Abort, alloc: Global, limit: u8) -> Result<(), Fail>
    requires some { 0 < limit }
    requires at_most { limit ≤ 128 }
{
    // a heap rounds its size up to a multiple of 16
    let scarce = LocalHeap::new(alloc, usize::from(limit) * 1500 - 16)?;
    assert!(rt; Table::open(&scarce, limit).is_err());
    assert_eq!(rt; scarce.used(), 0);
    Ok(())
}

/// Makes each call that changes an empty table.
fn fills<A: Allocator>(rt: &impl Abort, table: &mut Table<A>, limit: u8)
    requires { 0 < limit }
{
    for port in 0..limit {
        learns(rt, table, &lldpdu(port, 9), Learned::New);
    }
    learns(rt, table, &lldpdu(limit, 9), Learned::Dropped);
    learns(rt, table, &lldpdu(0, 1), Learned::Refreshed);
    assert!(rt; limit <= table.capacity() && table.len() <= limit);
    table.set_limit(limit);
    ticks(rt, table, 1, 1);
    forgets(rt, table, &lldpdu(1, 9), limit > 1);
    table.purge();
    assert_eq!(rt; table.limit(), limit);
}

/// Checks that a table makes one allocation, for all neighbors; that opening fails if there is less
/// room; and that no later call needs memory.
#[test]
fn memory(rt: HostRuntime) -> Result<(), Fail> {
    for limit in [1u8, 32, 128] {
        refuses_less(&rt, rt.alloc(), limit)?;
        let ample = LocalHeap::new(rt.alloc(), usize::from(limit) * 3200)?;
        let mut table = Table::open(&ample, limit)?;
        assert!(rt; ample.used() >= usize::from(limit) * 1500);
        let rest = Vec::<u8, _>::with_capacity(&ample, ample.free())?;
        assert!(rt; Vec::<u8, _>::with_capacity(&ample, 1).is_err());
        let used = ample.used();
        fills(&rt, &mut table, limit);
        assert_eq!(rt; ample.used(), used);
        assert!(rt; rest.is_empty());
    }
    Ok(())
}
