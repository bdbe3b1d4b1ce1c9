// Slots and sheets on examples.
use crate::*;
use std::test::Fail;

const EXAMPLE: &[u8] =
    b"bench 2\nkind tally\norder last\nobjects 2\n4\n-90\nlines 3\nset n0 7\nwith\ncont\n";

const NEW: &[u8] = b"run 2\ntasks 1\nsteps 1\nobjects 1\n0\n";

const WORKED: &[u8] = b"run 2\ntasks 1\nsteps 3\nobjects 2\n4\n-90\n";

// A slot's card worked as tally.
fn slot_sheet(heap: Global, slot: &Slot) -> Result<Vec<u8>, AllocError> {
    serial_sheet(heap, &Tally, slot.card())
}

#[test]
fn a_refusal_keeps_the_card(rt: HostRuntime) -> Result<(), Fail> {
    let heap = rt.alloc();
    let mut slot = Slot::new(heap)?;
    assert!(rt; slot_sheet(heap, &slot)?.as_slice() == NEW, "a new slot");
    assert!(rt; slot.load(heap, b"bench 3\n").is_err());
    assert!(rt; slot_sheet(heap, &slot)?.as_slice() == NEW, "refused");
    assert!(rt; slot.load(heap, EXAMPLE).is_ok());
    assert!(rt; slot_sheet(heap, &slot)?.as_slice() == WORKED, "loaded");
    assert!(rt; slot.load(heap, b"").is_err());
    assert!(rt;
        slot_sheet(heap, &slot)?.as_slice() == WORKED,
        "refused again"
    );
    Ok(())
}

#[test]
fn another_kind_works_the_same_card(rt: HostRuntime) -> Result<(), Fail> {
    let heap = rt.alloc();
    let mut slot = Slot::new(heap)?;
    assert!(rt; slot.load(heap, EXAMPLE).is_ok());
    let sheet = serial_sheet(heap, &Flags, slot.card())?;
    assert!(rt;
        sheet.as_slice() == b"run 2\ntasks 1\nsteps 3\nobjects 2\n4\n4294967206\n".as_slice()
    );
    Ok(())
}
