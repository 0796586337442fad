//! What became of all frames, and which notices a connection gets, after each event of worked runs. Both are worked out
//! by hand.

use super::*;
use buffer_ring::PlainStore;
use ca_base::values::BUFFER_SILENT;
use ca_base::{Bytes, ClientNo, ConnNo, EndpointNo, Guid, Hr, NoMemory, SessionNo, Text};
use ca_model::{Call, DeviceEvent, Event, Reply};
use call_wire::Desk;
use device_io::MemDevices;
use event_notices::kinds::{
    CLASS_DEVICES, CLASS_SESSION, DEFAULT_CHANGED, DEVICE_STATE, DISCONNECTED, SESSION_STATE,
    SIMPLE_VOLUME,
};
use std::alloc::Global;
use std::test::Fail;

const CONNECTION: ConnNo = ConnNo(1);

const CLIENT: ClientNo = ClientNo(1);

const SPEAKERS: EndpointNo = EndpointNo(1);

/// A WAVEFORMATEX of 48,000 Hz and two channels.
const FORMAT: &[u8] = b"\x01\0\x02\0\x80\xbb\0\0\0\xee\x02\0\x04\0\x10\0\0\0";

/// What is asked of the one client.
#[derive(Clone, Copy)]
enum Ask {
    /// GetBuffer and ReleaseBuffer of so many silent frames.
    Put(u32),
    Start,
    Stop,
    Reset,
    Release,
    Hangup,
    Shutdown,
    /// A period of the speakers: 480 frames.
    Period,
}

/// What is asked, and the frames that are released, rendered, padding, reset and dropped then.
type Row = (Ask, [u128; 5]);

/// Runs of a client with a buffer of one second. The third call of the device fails.
const RUNS: [&[Row]; 5] = [
    // a usual player: of 48,480 frames two periods are rendered, and the rest is dropped as its client is released
    &[
        (Ask::Put(48_000), [48_000, 0, 48_000, 0, 0]),
        (Ask::Start, [48_000, 0, 48_000, 0, 0]),
        (Ask::Period, [48_000, 480, 47_520, 0, 0]),
        (Ask::Put(480), [48_480, 480, 48_000, 0, 0]),
        (Ask::Period, [48_480, 960, 47_520, 0, 0]),
        (Ask::Stop, [48_480, 960, 47_520, 0, 0]),
        (Ask::Release, [48_480, 960, 0, 0, 47_520]),
    ],
    // two periods are rendered, and the rest is dropped as the device fails
    &[
        (Ask::Put(48_000), [48_000, 0, 48_000, 0, 0]),
        (Ask::Start, [48_000, 0, 48_000, 0, 0]),
        (Ask::Period, [48_000, 480, 47_520, 0, 0]),
        (Ask::Period, [48_000, 960, 47_040, 0, 0]),
        (Ask::Period, [48_000, 960, 0, 0, 47_040]),
        (Ask::Release, [48_000, 960, 0, 0, 47_040]),
    ],
    // 7 frames are reset, and 7 are dropped with their client
    &[
        (Ask::Put(7), [7, 0, 7, 0, 0]),
        (Ask::Reset, [7, 0, 0, 7, 0]),
        (Ask::Put(7), [14, 0, 7, 7, 0]),
        (Ask::Release, [14, 0, 0, 7, 7]),
    ],
    // 7 frames are dropped with their connection
    &[
        (Ask::Put(7), [7, 0, 7, 0, 0]),
        (Ask::Hangup, [7, 0, 0, 0, 7]),
    ],
    // and 6 with the service
    &[
        (Ask::Put(6), [6, 0, 6, 0, 0]),
        (Ask::Shutdown, [6, 0, 0, 0, 6]),
    ],
];

/// A service with the speakers, and a client whose stream is stopped.
fn opened(alloc: Global) -> Result<Core<MemDevices, PlainStore>, NoMemory> {
    let mut left = Vec::new(alloc);
    left.push((SPEAKERS, Bytes::new(alloc)))?;
    let devices = MemDevices::new(alloc, left, 10_000, [(3, 0)].to_vec(alloc)?)?;
    let mut core = match Core::new(alloc, devices) {
        Ok(core) => core,
        Err((refused, _)) => return Err(refused),
    };
    let add = DeviceEvent::Add {
        endpoint: SPEAKERS,
        flow: 0,
        format: Bytes::from_slice(alloc, FORMAT)?,
        name: Text::new(b"Speakers"),
    };
    let activate = Call::Activate {
        endpoint: SPEAKERS,
        role: 0,
    };
    let initialize = Call::Initialize {
        client: CLIENT,
        share: 0,
        flags: 0,
        duration: 10_000_000,
        period: 0,
        format: Bytes::from_slice(alloc, FORMAT)?,
        session: Guid(0),
    };
    let _ = core.device(&add);
    let _ = core.open(CONNECTION, 10, &Text::new(b"player"));
    let _ = core.call(CONNECTION, &activate);
    let _ = core.call(CONNECTION, &initialize);
    Ok(core)
}

/// Asks it of a service, and whether all of it was granted.
fn is_granted(core: &mut Core<MemDevices, PlainStore>, alloc: Global, ask: Ask) -> bool {
    match ask {
        Ask::Put(frames) => {
            let get = Call::GetBuffer {
                client: CLIENT,
                frames,
            };
            let put = Call::ReleaseBuffer {
                client: CLIENT,
                frames,
                flags: BUFFER_SILENT,
                bytes: Bytes::new(alloc),
            };
            core.call(CONNECTION, &get).is_ok() && core.call(CONNECTION, &put).is_ok()
        }
        Ask::Start => core
            .call(CONNECTION, &Call::Start { client: CLIENT })
            .is_ok(),
        Ask::Stop => core
            .call(CONNECTION, &Call::Stop { client: CLIENT })
            .is_ok(),
        Ask::Reset => core
            .call(CONNECTION, &Call::Reset { client: CLIENT })
            .is_ok(),
        Ask::Release => core
            .call(CONNECTION, &Call::Release { client: CLIENT })
            .is_ok(),
        Ask::Hangup => core.hangup(CONNECTION).is_ok(),
        Ask::Shutdown => core.shutdown().is_ok(),
        Ask::Period => match replied(core, alloc, &event_of(Told::Period)) {
            Ok(reply) => reply.result == Hr::S_OK,
            Err(_) => false,
        },
    }
}

#[test]
fn each_frame_is_counted_once(rt: HostRuntime) -> Result<(), Fail> {
    let alloc = rt.alloc();
    for run in &RUNS {
        let mut core = opened(alloc)?;
        for (ask, counts) in *run {
            let [released, rendered, padding, reset, dropped] = *counts;
            assert!(rt; is_granted(&mut core, alloc, *ask));
            let totals = Totals {
                released,
                rendered,
                padding,
                reset,
                dropped,
            };
            assert_eq!(rt; core.totals(), totals);
        }
    }
    Ok(())
}

/// What is asked of a desk.
#[derive(Clone, Copy)]
enum Told {
    Start,
    Mute,
    Period,
    Shutdown,
}

fn event_of(told: Told) -> Event {
    let call = match told {
        Told::Period => return Event::Period { endpoint: SPEAKERS },
        Told::Shutdown => return Event::Shutdown,
        Told::Start => Call::Start { client: CLIENT },
        Told::Mute => Call::SetMute {
            session: SessionNo(1),
            mute: 1,
            context: Guid(0),
        },
    };
    called(call)
}

fn called(call: Call) -> Event {
    Event::Call {
        conn: CONNECTION,
        tag: 0,
        call,
    }
}

/// The first bytes of the kind, the subject and the value of each notice that the connection takes then.
type Notices = &'static [[u8; 3]];

/// Runs of a client whose connection registered for devices, and for what happens to sessions. The third call of the
/// device fails.
const TOLD: [&[(Told, Notices)]; 2] = [
    // the device that fails is NOTPRESENT, no role of playing has a default any more, and the session loses its stream
    &[
        (Told::Start, &[[SESSION_STATE, 1, 1]]),
        (Told::Period, &[]),
        (Told::Mute, &[[SIMPLE_VOLUME, 1, 1]]),
        (Told::Mute, &[]),
        (Told::Period, &[]),
        (
            Told::Period,
            &[
                [DEVICE_STATE, 1, 4],
                [DEFAULT_CHANGED, 0, 0],
                [DEFAULT_CHANGED, 1, 0],
                [DEFAULT_CHANGED, 2, 0],
                [DISCONNECTED, 1, 0],
                [SESSION_STATE, 1, 0],
            ],
        ),
    ],
    &[
        (Told::Start, &[[SESSION_STATE, 1, 1]]),
        (
            Told::Shutdown,
            &[[DISCONNECTED, 1, 1], [SESSION_STATE, 1, 0]],
        ),
        (Told::Shutdown, &[]),
    ],
];

/// The bytes of a notice without a text, and those before the notices of a payload.
const NOTICE: usize = 35;

const HEAD: usize = 16;

/// Whether a payload of TakeNotices has these notices, all without a text.
fn has_notices(payload: &[u8], notices: &[[u8; 3]]) -> bool {
    let Some(rest) = payload.get(HEAD..) else {
        return false;
    };
    rest.len() / NOTICE == notices.len()
        && rest.chunks(NOTICE).zip(notices.iter()).all(|(n, [kind, subject, value])| {
            n.get(0) == Some(kind) && n.get(1) == Some(subject) && n.get(25) == Some(value)
        })
}

/// What a desk replies to an event.
fn replied<D: Desk>(desk: &mut D, alloc: Global, event: &Event) -> Result<Reply, NoMemory> {
    let mut reply = Reply {
        kind: 0,
        conn: 0,
        tag: 0,
        result: Hr::S_OK,
        payload: Bytes::new(alloc),
    };
    desk.ask(event, &mut reply)?;
    Ok(reply)
}

#[test]
fn each_notice_is_told_once(rt: HostRuntime) -> Result<(), Fail> {
    let alloc = rt.alloc();
    for run in &TOLD {
        let mut core = opened(alloc)?;
        for class in [CLASS_DEVICES, CLASS_SESSION] {
            let register = called(Call::Register { class, subject: 0 });
            assert_eq!(rt; replied(&mut core, alloc, &register)?.result, Hr::S_OK);
        }
        for (told, notices) in *run {
            replied(&mut core, alloc, &event_of(*told))?;
            let taken = replied(&mut core, alloc, &called(Call::TakeNotices { max: 64 }))?;
            assert!(rt; has_notices(taken.payload.as_slice(), notices));
        }
    }
    Ok(())
}
