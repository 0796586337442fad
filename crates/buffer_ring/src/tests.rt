use super::*;
use ca_base::{Dir, Gate, Reason, Seen};
use std::test::Fail;

/// What a look at an open store finds.
const fn open(words: u32) -> Seen {
    Seen {
        words,
        gate: Gate::Open,
    }
}

#[test]
fn a_client_puts_and_the_engine_takes(rt: HostRuntime) -> Result<(), Fail> {
    let mut store = PlainStore::new(rt.alloc(), 4, Dir::Render)?;
    assert_eq!(rt; store.client_put(&[1, 2, 3]), Put::Done);
    assert_eq!(rt; store.held(), 3);
    assert_eq!(rt; store.get(0), 1);
    assert_eq!(rt; store.get(2), 3);
    store.retire(2);
    // behind the end of the block, and on from its front
    assert_eq!(rt; store.client_put(&[4, 5, 6]), Put::Done);
    assert_eq!(rt; store.look(), open(4));
    assert_eq!(rt; store.get(1), 4);
    assert_eq!(rt; store.get(3), 6);
    let mut words = [0; 3];
    store.read(1, &mut words);
    assert_eq!(rt; words, [4, 5, 6]);
    store.read(0, &mut words);
    assert_eq!(rt; words, [3, 4, 5]);
    Ok(())
}

#[test]
fn the_engine_puts_and_a_client_takes(rt: HostRuntime) -> Result<(), Fail> {
    let mut store = PlainStore::new(rt.alloc(), 3, Dir::Capture)?;
    store.put(&[7, 8]);
    assert_eq!(rt; store.look(), open(2));
    assert_eq!(rt; store.client_get(1), 8);
    assert_eq!(rt; store.client_retire(2), Retired::Done);
    store.put(&[9, 10, 11]);
    assert_eq!(rt; store.client_get(2), 11);
    assert_eq!(rt; store.client_retire(3), Retired::Done);
    assert_eq!(rt; store.held(), 0);
    Ok(())
}

#[test]
fn a_closed_gate_lets_nothing_through(rt: HostRuntime) -> Result<(), Fail> {
    let mut store = PlainStore::new(rt.alloc(), 4, Dir::Render)?;
    assert_eq!(rt; store.client_put(&[1, 2, 3]), Put::Done);
    assert_eq!(rt; store.close(Reason::Shutdown), 3);
    let closed = Seen {
        words: 0,
        gate: Gate::Closed(Reason::Shutdown),
    };
    assert_eq!(rt; store.look(), closed);
    assert_eq!(rt; store.client_put(&[4]), Put::Closed(Reason::Shutdown));
    assert_eq!(rt; store.client_retire(0), Retired::Closed(Reason::Shutdown));
    assert_eq!(rt; store.look(), closed);
    Ok(())
}
