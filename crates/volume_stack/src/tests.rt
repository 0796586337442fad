use super::*;
use ca_base::limits::MAX_LEVEL;
use std::test::Fail;

/// Levels that change nothing.
const UNIT: Gains = Gains {
    stream: MAX_LEVEL,
    session: MAX_LEVEL,
    master: MAX_LEVEL,
    duck: MAX_LEVEL,
    mute: false,
};

#[test]
fn levels_multiply_and_round_once(rt: HostRuntime) -> Result<(), Fail> {
    let half = Gains {
        master: 32768,
        ..UNIT
    };
    assert_eq!(rt; stream_gain(&UNIT), 65536);
    assert_eq!(rt; stream_gain(&half), 32768);
    assert_eq!(rt;
        stream_gain(&Gains {
            duck: 13107,
            ..half
        }),
        6553
    );
    assert_eq!(rt; stream_gain(&Gains { mute: true, ..UNIT }), 0);
    Ok(())
}

#[test]
fn samples_are_scaled_toward_zero(rt: HostRuntime) -> Result<(), Fail> {
    let mut sums = [0; 2];
    add_plain(&[1001, -1001], 32768, &mut sums);
    assert_eq!(rt; sums, [500, -500]);
    let mut ducked = [0];
    add_plain(&[10000], 6553, &mut ducked);
    assert_eq!(rt; ducked, [999]);
    Ok(())
}

#[test]
fn only_the_whole_sum_is_clamped(rt: HostRuntime) -> Result<(), Fail> {
    let sums = [60000, 30000, -60000];
    let mut out = [0; 3];
    out_plain(&sums, 65536, &mut out);
    assert_eq!(rt; out, [32767, 30000, -32768]);
    out_plain(&sums, 32768, &mut out);
    assert_eq!(rt; out, [30000, 15000, -30000]);
    Ok(())
}
