//! Worked formats, faults and frames.

use crate::*;
use ca_base::Bytes;
use std::test::Fail;

/// 48,000 Hz with two channels.
const STEREO: [u8; 18] = [
    0x01, 0x00, 0x02, 0x00, 0x80, 0xbb, 0x00, 0x00, 0x00, 0xee, 0x02, 0x00, 0x04, 0x00, 0x10, 0x00,
    0x00, 0x00,
];

/// The same with the mask of a left and a right speaker in front.
const SPEAKERS: [u8; 40] = [
    0xfe, 0xff, 0x02, 0x00, 0x80, 0xbb, 0x00, 0x00, 0x00, 0xee, 0x02, 0x00, 0x04, 0x00, 0x10, 0x00,
    0x16, 0x00, 0x10, 0x00, 0x03, 0x00, 0x00, 0x00, 0x01, 0x00, 0x00, 0x00, 0x00, 0x00, 0x10, 0x00,
    0x80, 0x00, 0x00, 0xaa, 0x00, 0x38, 0x9b, 0x71,
];

const PLAIN_FORMAT: Format = Format {
    channels: 2,
    rate: 48000,
    extensible: false,
    mask: 0,
};

const SPEAKERS_FORMAT: Format = Format {
    channels: 2,
    rate: 48000,
    extensible: true,
    mask: 3,
};

#[test]
fn worked_formats(rt: HostRuntime) -> Result<(), Fail> {
    assert_eq!(rt; read_format(&STEREO), Ok(PLAIN_FORMAT));
    assert_eq!(rt; read_format(&SPEAKERS), Ok(SPEAKERS_FORMAT));
    assert_eq!(rt; format_tag(&STEREO), Some(1));
    assert_eq!(rt; format_tag(&SPEAKERS), Some(0xfffe));
    let mut out = Bytes::new(rt.alloc());
    assert_eq!(rt; write_format(&PLAIN_FORMAT, &mut out), Ok(()));
    assert_eq!(rt; out.as_slice(), STEREO.as_slice());
    out.clear();
    assert_eq!(rt; write_format(&SPEAKERS_FORMAT, &mut out), Ok(()));
    assert_eq!(rt; out.as_slice(), SPEAKERS.as_slice());
    Ok(())
}

/// What is read with one byte changed.
fn read_with<const N: usize>(mut bytes: [u8; N], place: usize, byte: u8) -> Result<Format, u8> {
    if place < bytes.len() {
        bytes[place] = byte;
    }
    read_format(&bytes).map_err(|fault| fault.0)
}

#[test]
fn faults(rt: HostRuntime) -> Result<(), Fail> {
    for (place, byte, read) in [
        (0, 2, Err(3)),
        (2, 0, Err(5)),
        (2, 5, Err(5)),
        (4, 0x81, Err(6)),
        (8, 1, Err(8)),
        (12, 6, Err(7)),
        (14, 8, Err(4)),
        (16, 7, Ok(PLAIN_FORMAT)),
    ] {
        assert_eq!(rt;
            read_with(STEREO, place, byte),
            read,
            "byte {byte} at {place}"
        );
    }
    for (place, byte, read) in [
        (0, 0xfd, Err(3)),
        (8, 1, Err(8)),
        (16, 21, Err(2)),
        (18, 15, Err(4)),
        (
            23,
            0x80,
            Ok(Format {
                mask: 0x8000_0003,
                ..SPEAKERS_FORMAT
            }),
        ),
        (24, 3, Err(9)),
        (39, 0, Err(9)),
    ] {
        assert_eq!(rt;
            read_with(SPEAKERS, place, byte),
            read,
            "byte {byte} at {place}"
        );
    }
    assert_eq!(rt; read_format(&STEREO[..17]), Err(FormatFault(1)));
    assert_eq!(rt; read_format(&[1; 19]), Err(FormatFault(2)));
    assert_eq!(rt; read_format(&SPEAKERS[..39]), Err(FormatFault(2)));
    Ok(())
}

#[test]
fn frames_of_a_time(rt: HostRuntime) -> Result<(), Fail> {
    for (rate, time, frames) in [
        (44100, 100000, 441),
        (44100, 30000, 133),
        (48000, 100000, 480),
        (48000, 0, 0),
        (96000, u64::MAX, 177_088_743_107_611_696),
    ] {
        assert_eq!(rt; frames_of(rate, time), frames, "{rate} Hz for {time}");
    }
    Ok(())
}

#[test]
fn frame_words(rt: HostRuntime) -> Result<(), Fail> {
    let word = pack(&[1, -1]);
    assert_eq!(rt; word, 0xffff_0001);
    assert_eq!(rt; unpack(word, 0), 1);
    assert_eq!(rt; unpack(word, 1), -1);
    assert_eq!(rt; unpack(word, 2), 0);
    assert_eq!(rt; pack(&[-32768, 32767, 0, -2]), 0xfffe_0000_7fff_8000);
    let bytes = [0x01, 0x00, 0xff, 0xff];
    assert_eq!(rt; word_from_bytes(&bytes), word);
    let mut out = [0; 4];
    bytes_of_word(word, &mut out);
    assert_eq!(rt; out, bytes);
    let mut words = [0; 2];
    words_of::<4>(
        &[0x01, 0x00, 0xff, 0xff, 0x00, 0x80, 0xff, 0x7f],
        &mut words,
    );
    assert_eq!(rt; words, [word, 0x7fff_8000]);
    Ok(())
}
