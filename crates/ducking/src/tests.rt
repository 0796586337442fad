//! The duck levels of a call's life, as worked by hand.

use super::*;
use ca_base::SessionNo;
use std::test::Fail;

/// Music in session 1 and a call in session 2, by whether the call is active, session 1 opted out and the rule.
#[test]
fn a_call_ducks_music_until_it_stops(rt: HostRuntime) -> Result<(), Fail> {
    let rows = [
        (false, false, 1, 65536, 0),
        (true, false, 1, 13107, 1),
        (true, true, 1, 65536, 1),
        (false, false, 1, 65536, 0),
        (true, false, 0, 0, 1),
        (true, false, 2, 32768, 1),
        (true, false, 3, 65536, 1),
    ];
    for (calls, optout, rule, level, count) in rows {
        let mut book = DuckBook::new(rt.alloc())?;
        let music = DuckRow {
            session: SessionNo(1),
            comms: false,
            active: true,
            optout,
        };
        let call = DuckRow {
            session: SessionNo(2),
            comms: true,
            active: calls,
            optout: false,
        };
        book.set(music);
        book.set(call);
        if rule <= RULE_NOTHING {
            book.set_rule(rule);
        }
        assert_eq!(rt; book.level(SessionNo(1)), level);
        assert_eq!(rt; book.level(SessionNo(2)), 65536);
        assert_eq!(rt; book.count(), count);
    }
    Ok(())
}
