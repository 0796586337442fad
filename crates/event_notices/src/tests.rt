//! Worked values: each call once, and the notices that a queue of 256 keeps.

ghost use Rattle.std.specs.Prelude.{◌≡◌, ◌≤◌, [], length, vec_capacity};
ghost use Rattle.ca_base.specs.declared.limits.TheConstants.{MAX_TEXT};

use super::*;
use crate::kinds::*;
use ca_base::limits::NOTICES;
use ca_base::{Guid, Hr, Text};
use std::alloc::{AllocError, Global};
use std::test::Fail;

/// A notice with a value and a text.
fn notice(kind: u8, subject: u64, value: u64, text: &[u8]) -> Notice
    requires { length text.now ≤ MAX_TEXT }
{
    Notice {
        kind,
        subject,
        context: Guid(9),
        value,
        text: Text::new(text),
    }
}

/// What a queue gives: the values of the notices, and how many were lost.
fn take(alloc: Global, queue: &mut NoticeQueue, max: u32) -> Result<(Vec<u64>, u64), AllocError> {
    let mut out = Vec::with_capacity(alloc, NOTICES)?;
    let lost = queue.take(max, &mut out);
    let mut values = Vec::new(alloc);
    for n in &out {
        values.push(n.value)?;
    }
    Ok((values, lost))
}

#[test]
fn the_last_256_are_kept(rt: HostRuntime) -> Result<(), Fail> {
    let mut queue = NoticeQueue::new(rt.alloc())?;
    assert_eq!(rt; queue.register(CLASS_SESSION, 3), Ok(1));
    for value in 1..=257 {
        queue.push(&notice(SIMPLE_VOLUME, 3, value, b""));
    }
    let (first, lost) = take(rt.alloc(), &mut queue, 2)?;
    assert!(rt; first.as_slice() == [2, 3].as_slice());
    assert_eq!(rt; lost, 1);
    let (rest, lost) = take(rt.alloc(), &mut queue, 1000)?;
    assert_eq!(rt; rest.len(), 254);
    assert_eq!(rt; rest.first(), Some(&4));
    assert_eq!(rt; rest.last(), Some(&257));
    assert_eq!(rt; lost, 0);
    let (none, lost) = take(rt.alloc(), &mut queue, 1000)?;
    assert_eq!(rt; none.len(), 0);
    assert_eq!(rt; lost, 0);
    Ok(())
}

#[test]
fn those_that_match_are_kept(rt: HostRuntime) -> Result<(), Fail> {
    let mut queue = NoticeQueue::new(rt.alloc())?;
    let refused = Err(NoticeFault::Refused(Hr::E_INVALIDARG));
    assert_eq!(rt; queue.register(0, 0), refused);
    assert_eq!(rt; queue.register(7, 0), refused);
    assert_eq!(rt; queue.register(CLASS_DEVICES, 5), Ok(1));
    assert_eq!(rt; queue.register(CLASS_SESSION, 3), Ok(2));
    assert_eq!(rt; queue.register(CLASS_PARTS, 0), Ok(3));
    assert_eq!(rt; queue.register(CLASS_PARTS, 4), Ok(4));
    queue.push_all(&[
        notice(DEVICE_ADDED, 1, 1, b"endpoint-1"),
        notice(DEVICE_PROPERTY, 5, 2, b""),
        notice(SESSION_CREATED, 3, 3, b""),
        notice(DISCONNECTED, 3, 4, b""),
        notice(GROUPING, 4, 5, b""),
        notice(DUCK, 3, 6, b""),
        notice(ENDPOINT_VOLUME, 4, 7, b""),
        notice(PART_CHANGED, 4, 8, b""),
        notice(18, 4, 9, b""),
    ]);
    let (values, _) = take(rt.alloc(), &mut queue, 1000)?;
    assert!(rt; values.as_slice() == [1, 2, 4, 8].as_slice());
    assert_eq!(rt; queue.unregister(2), Ok(()));
    assert_eq!(rt; queue.unregister(2), Err(Hr::E_NOTFOUND));
    queue.push_all(&[
        notice(DISCONNECTED, 3, 10, b""),
        notice(DEVICE_ADDED, 2, 11, b""),
    ]);
    let (values, _) = take(rt.alloc(), &mut queue, 1000)?;
    assert!(rt; values.as_slice() == [11].as_slice());
    queue.clear();
    queue.push(&notice(DEVICE_ADDED, 2, 12, b""));
    let (values, _) = take(rt.alloc(), &mut queue, 1000)?;
    assert_eq!(rt; values.len(), 0);
    assert_eq!(rt; queue.register(CLASS_DEVICES, 0), Ok(1));
    Ok(())
}
