//! Tests that opening reports a lack of memory. No later call allocates memory: the types ensure
//! it, and tools/gate/test_refused_memory.py checks it for the program.
use super::{NAMES, only_receiving, open};
use linked_list_allocator::LocalHeap;
use lldp_engine::OpenFault;
use lldp_table::Table;
use std::alloc::{Allocator, Global};
use std::process::Abort;
use std::test::Fail;

/// The size of a heap that is large enough for every opening below.
const AMPLE: usize = 400_000;

/// Returns the size of the memory that the table of a port needs.
fn table_size(rt: &impl Abort, alloc: Global, limit: u8) -> Result<usize, Fail> {
    assert!(rt; 0 < limit && limit <= 128);
    let heap = LocalHeap::new(alloc, AMPLE)?;
    let table = Table::open(&heap, limit)?;
    assert_eq!(rt; table.len(), 0);
    Ok(heap.used())
}

/// Opens an agent in a heap of this size. Returns how much of the heap is used, or the fault.
/// Checks that a refused opening leaves nothing allocated.
fn taken(
    rt: &impl Abort,
    alloc: Global,
    ports: &[&str],
    limit: u8,
    size: usize,
) -> Result<Result<usize, OpenFault>, Fail> {
    let heap = LocalHeap::new(alloc, size)?;
    match open(rt, &heap, &only_receiving(ports, limit)) {
        Ok(agent) => {
            assert_eq!(rt; usize::from(agent.ports()), ports.len());
            Ok(Ok(heap.used()))
        }
        Err(fault) => {
            assert_eq!(rt; heap.used(), 0);
            Ok(Err(fault))
        }
    }
}

/// Checks that a heap of just enough size suffices for opening. Then checks that opening fails with
/// smaller heaps, so that each allocation in turn is refused: that of the table of each port, and
/// that of the list of ports, which comes first.
fn refuse_each(rt: &impl Abort, alloc: Global, ports: &[&str], limit: u8) -> Result<(), Fail> {
    let table = table_size(rt, alloc, limit)?;
    let all = taken(rt, alloc, ports, limit, AMPLE)??;
    assert_eq!(rt; taken(rt, alloc, ports, limit, all)?, Ok(all));
    let mut size = all;
    for _ in 0..=ports.len() {
        assert!(rt; 16 < size);
        let refused = taken(rt, alloc, ports, limit, size - 16)?;
        assert_eq!(rt; refused, Err(OpenFault::Memory));
        size = size.saturating_sub(table);
    }
    Ok(())
}

#[test]
fn refused_at_opening(rt: HostRuntime) -> Result<(), Fail> {
    refuse_each(&rt, rt.alloc(), &NAMES[..1], 1)?;
    refuse_each(&rt, rt.alloc(), &NAMES[..1], 128)?;
    refuse_each(&rt, rt.alloc(), &NAMES, 2)
}

/// Checks that faults of the options are reported before memory is allocated.
#[test]
fn other_faults_first(rt: HostRuntime) -> Result<(), Fail> {
    let refused = taken(&rt, rt.alloc(), &["a.b"], 2, 64)?;
    assert_eq!(rt; refused, Err(OpenFault::PortName));
    Ok(())
}
