//! Each kind of devices once with ample memory.

mod narrow;

use crate::{Devices, FileDevices, MemDevices};
use ca_base::{Bytes, EndpointNo, Failed};
use narrow::NarrowFiles;
use std::fs;
use std::test::Fail;

const SPEAKERS: EndpointNo = EndpointNo(1);

const MICROPHONE: EndpointNo = EndpointNo(2);

#[test]
fn writes_in_memory(rt: HostRuntime) -> Result<(), Fail> {
    let mut left = Vec::new(rt.alloc());
    left.push((SPEAKERS, Bytes::new(rt.alloc())))?;
    let failing = [(2, 0), (3, 1)].to_vec(rt.alloc())?;
    let mut devices = MemDevices::new(rt.alloc(), left, 4, failing)?;
    assert_eq!(rt; devices.write(SPEAKERS, &[9, 8]), Ok(2));
    assert_eq!(rt; devices.write(SPEAKERS, &[7]), Err(Failed));
    assert_eq!(rt; devices.write(SPEAKERS, &[7, 6]), Ok(1));
    assert_eq!(rt; devices.write(SPEAKERS, &[6]), Err(Failed));
    assert_eq!(rt; devices.write(SPEAKERS, &[6, 5]), Ok(1));
    assert_eq!(rt; devices.write(SPEAKERS, &[5]), Err(Failed));
    assert_eq!(rt; devices.written(SPEAKERS), [9, 8, 7, 6].as_slice());
    assert_eq!(rt; devices.faults(), 3);
    Ok(())
}

#[test]
fn reads_in_memory(rt: HostRuntime) -> Result<(), Fail> {
    let mut left = Vec::new(rt.alloc());
    left.push((MICROPHONE, Bytes::from_slice(rt.alloc(), &[1, 2, 3])?))?;
    left.push((MICROPHONE, Bytes::from_slice(rt.alloc(), &[4])?))?;
    let failing = [(2, 1)].to_vec(rt.alloc())?;
    let mut devices = MemDevices::new(rt.alloc(), left, 4, failing)?;
    let mut buf = [0u8; 2];
    assert_eq!(rt; devices.read(MICROPHONE, &mut buf), Ok(2));
    assert_eq!(rt; devices.read(MICROPHONE, &mut buf), Ok(1));
    assert_eq!(rt; buf, [3, 2]);
    assert_eq!(rt; devices.read(MICROPHONE, &mut buf), Err(Failed));
    assert_eq!(rt; devices.read(MICROPHONE, &mut buf), Ok(0));
    assert_eq!(rt; devices.read(SPEAKERS, &mut buf), Err(Failed));
    Ok(())
}

#[test]
fn writes_are_added_to_their_files(rt: HostRuntime) -> Result<(), Fail> {
    fs::create_dir(&rt, "written")?;
    fs::write(&rt, "written/endpoint-1.pcm", [5u8].as_slice())?;
    let mut devices = FileDevices::new(rt, rt.alloc(), "written")?;
    assert_eq!(rt; devices.write(SPEAKERS, &[6, 7]), Ok(2));
    assert_eq!(rt;
        fs::read(&rt, "written/endpoint-1.pcm")?.as_slice(),
        [5, 6, 7].as_slice()
    );
    assert_eq!(rt; devices.write(EndpointNo(3), &[9]), Ok(1));
    assert_eq!(rt; devices.write(SPEAKERS, &[8]), Ok(1));
    assert_eq!(rt;
        fs::read(&rt, "written/endpoint-1.pcm")?.as_slice(),
        [5, 6, 7, 8].as_slice()
    );
    assert_eq!(rt;
        fs::read(&rt, "written/endpoint-3.pcm")?.as_slice(),
        [9].as_slice()
    );
    assert_eq!(rt; devices.faults(), 0);
    fs::remove_dir_all(&rt, "written")?;
    Ok(())
}

#[test]
fn reads_go_on_in_their_files(rt: HostRuntime) -> Result<(), Fail> {
    fs::create_dir(&rt, "read")?;
    fs::write(&rt, "read/endpoint-2.pcm", [1u8, 2, 3].as_slice())?;
    let mut devices = FileDevices::new(rt, rt.alloc(), "read")?;
    let mut buf = [0u8; 2];
    assert_eq!(rt; devices.read(MICROPHONE, &mut buf), Ok(2));
    assert_eq!(rt; buf, [1, 2]);
    assert_eq!(rt; devices.read(EndpointNo(3), &mut buf), Err(Failed));
    assert_eq!(rt; devices.read(MICROPHONE, &mut buf), Ok(1));
    assert_eq!(rt; buf, [3, 2]);
    assert_eq!(rt; devices.read(MICROPHONE, &mut buf), Ok(0));
    assert_eq!(rt; devices.read(MICROPHONE, &mut buf), Ok(0));
    assert_eq!(rt; devices.faults(), 1);
    fs::remove_dir_all(&rt, "read")?;
    Ok(())
}

#[test]
fn each_run_reads_a_file_from_its_front(rt: HostRuntime) -> Result<(), Fail> {
    fs::create_dir(&rt, "front")?;
    let mut buf = [0u8; 2];
    let mut devices = FileDevices::new(NarrowFiles(rt), rt.alloc(), "front")?;
    assert_eq!(rt;
        devices.read(MICROPHONE, &mut buf),
        Err(Failed),
        "not there"
    );
    fs::write(&rt, "front/endpoint-2.pcm", [1u8, 2].as_slice())?;
    for (count, first) in [(1, 1), (1, 2), (0, 2)] {
        assert_eq!(rt; devices.read(MICROPHONE, &mut buf), Ok(count));
        assert_eq!(rt; buf, [first, 0]);
    }
    let mut devices = FileDevices::new(rt, rt.alloc(), "front")?;
    assert_eq!(rt; devices.read(MICROPHONE, &mut buf), Ok(2));
    assert_eq!(rt; buf, [1, 2]);
    fs::remove_dir_all(&rt, "front")?;
    Ok(())
}

#[test]
fn a_short_write_counts_what_it_wrote(rt: HostRuntime) -> Result<(), Fail> {
    fs::create_dir(&rt, "short")?;
    let mut devices = FileDevices::new(NarrowFiles(rt), rt.alloc(), "short")?;
    assert_eq!(rt; devices.write(SPEAKERS, &[6, 7]), Ok(1));
    assert_eq!(rt; devices.write(SPEAKERS, &[7, 8]), Ok(1));
    assert_eq!(rt;
        fs::read(&rt, "short/endpoint-1.pcm")?.as_slice(),
        [6, 7].as_slice()
    );
    fs::remove_dir_all(&rt, "short")?;
    Ok(())
}

#[test]
fn a_folder_that_is_not_there(rt: HostRuntime) -> Result<(), Fail> {
    let mut devices = FileDevices::new(rt, rt.alloc(), "no-such-folder")?;
    assert_eq!(rt; devices.write(SPEAKERS, &[1]), Err(Failed));
    assert_eq!(rt; devices.write(SPEAKERS, &[1]), Err(Failed));
    assert_eq!(rt; devices.faults(), 2);
    Ok(())
}

fn is_send<T: Send>(_value: &T) {}

#[test]
fn devices_pass_to_threads(rt: HostRuntime) -> Result<(), Fail> {
    is_send(&MemDevices::new(rt.alloc(), Vec::new(rt.alloc()), 1, Vec::new(rt.alloc()))?);
    is_send(&FileDevices::new(rt, rt.alloc(), "no-such-folder")?);
    Ok(())
}
