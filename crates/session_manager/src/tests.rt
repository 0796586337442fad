//! Worked texts, and each call once.

ghost use Rattle.std.specs.Prelude.{◌≡◌, ◌≤◌, length};
ghost use Rattle.ca_base.specs.declared.limits.TheConstants.{MAX_CONNECTION_NAME};

use super::*;
use ca_base::limits::SESSIONS;
use ca_base::{Bytes, EndpointNo, Guid, Hr, SessionNo, Text};
use std::test::Fail;

/// GUIDs: none, and one with digits of all kinds, as RFC 9562 writes its bytes.
const NULL: u128 = 0;

const MIXED: u128 = 0xF81D4FAE_7DEC_11D0_A765_00A0C91E6BF6;

fn key(endpoint: u32, process: u32, guid: u128, name: &[u8]) -> SessionKey
    requires { length name.now ≤ MAX_CONNECTION_NAME }
    ensures { result.name ≡ name.now }
{
    SessionKey {
        endpoint: EndpointNo(endpoint),
        process,
        guid: Guid(guid),
        name: Text::new(name),
    }
}

/// A stream of two channels joins, if it may.
fn join(book: &mut SessionBook, key: &SessionKey, kept: Option<Kept>) -> Option<SessionNo>
    requires { length key.now.name ≤ MAX_CONNECTION_NAME }
{
    let kept = kept.filter(|k| k.level <= 65536);
    match book.check_join(key) {
        Ok(_) => Some(book.join(key, kept, true, 2)),
        Err(_) => None,
    }
}

/// Whether a new session has these texts.
fn tells(book: &mut SessionBook, key: &SessionKey, identifier: &[u8], process: &[u8]) -> bool
    requires { length key.now.name ≤ MAX_CONNECTION_NAME }
{
    let Some(no) = join(book, key, None) else {
        return false;
    };
    match book.get(no) {
        Some(s) => {
            s.identifier().as_bytes() == identifier
                && s.instance().as_bytes().strip_prefix(identifier) == Some(process)
        }
        None => false,
    }
}

#[test]
fn texts_are_as_worked(rt: HostRuntime) -> Result<(), Fail> {
    let mut book = SessionBook::new(rt.alloc())?;
    let plain = key(1, 10, NULL, b"player");
    let null = b"endpoint-1|player|00000000-0000-0000-0000-000000000000";
    assert!(rt; tells(&mut book, &plain, null, b"|10"));
    let shared = key(12, 0, MIXED, b"*");
    let mixed = b"endpoint-12|*|f81d4fae-7dec-11d0-a765-00a0c91e6bf6";
    assert!(rt; tells(&mut book, &shared, mixed, b"|0"));
    let long = key(4294967295, 4294967295, 1, b"");
    let one = b"endpoint-4294967295||00000000-0000-0000-0000-000000000001";
    assert!(rt; tells(&mut book, &long, one, b"|4294967295"));
    Ok(())
}

/// The level, the mute and the channels of a session that is there.
fn volumes(book: &SessionBook, no: SessionNo) -> Option<(u32, bool, [u32; 4], u16)> {
    let s = book.get(no)?;
    Some((s.level, s.mute, s.channels, s.count))
}

#[test]
fn calls_change_one_session(rt: HostRuntime) -> Result<(), Fail> {
    let mut book = SessionBook::new(rt.alloc())?;
    let kept = Some(Kept {
        level: 32768,
        mute: true,
    });
    let (a, b) = (key(1, 10, MIXED, b"a"), key(2, 10, MIXED, b"b"));
    let (one, two) = (SessionNo(1), SessionNo(2));
    assert_eq!(rt; join(&mut book, &a, None), Some(one));
    assert_eq!(rt; join(&mut book, &b, kept), Some(two));
    assert_eq!(rt; join(&mut book, &key(1, 10, MIXED, b"c"), kept), Some(one));
    assert_eq!(rt; book.find(&b), Some(two));
    assert_eq!(rt; volumes(&book, two), Some((32768, true, [65536; 4], 2)));
    assert_eq!(rt; book.set(one, &Change::Level(65536)), Ok(()));
    assert_eq!(rt; book.set(one, &Change::Mute(1)), Ok(()));
    assert_eq!(rt; book.set(one, &Change::Channel(1, 7)), Ok(()));
    assert_eq!(rt;
        book.set(one, &Change::Display(Text::new(b"Player"))),
        Ok(())
    );
    assert_eq!(rt;
        book.set(one, &Change::Icon(Text::new(b"/player.png"))),
        Ok(())
    );
    assert_eq!(rt; book.set(one, &Change::Grouping(Guid(MIXED))), Ok(()));
    assert_eq!(rt;
        volumes(&book, one),
        Some((65536, true, [65536, 7, 65536, 65536], 2))
    );
    assert_eq!(rt;
        book.set(SessionNo(3), &Change::Level(1)),
        Err(Hr::E_NOTFOUND)
    );
    assert_eq!(rt;
        book.set(one, &Change::Channel(2, 7)),
        Err(Hr::E_INVALIDARG)
    );
    assert_eq!(rt;
        book.set(one, &Change::Display(Text::new(b"\xFF"))),
        Err(Hr::E_INVALIDARG)
    );
    let mut out = Bytes::with_capacity(rt.alloc(), 8 * SESSIONS)?;
    book.enumerate(EndpointNo(2), &mut out);
    assert!(rt; out.as_slice() == [2, 0, 0, 0, 0, 0, 0, 0].as_slice());
    book.keep(|s| s.no != one);
    assert_eq!(rt; book.sessions().len(), 1);
    assert_eq!(rt; join(&mut book, &a, None), Some(SessionNo(3)));
    Ok(())
}
