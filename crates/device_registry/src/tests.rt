//! Each call once, with worked values.

ghost use Rattle.std.specs.Prelude.{◌≡◌, true};
ghost use Rattle.wave_format.specs.Format.{IsValid};
ghost use Rattle.device_registry.specs.Endpoints.{is_state};

use super::*;
use ca_base::limits::ENDPOINTS;
use ca_base::{EndpointNo, Flow, Hr, Text};
use std::test::Fail;
use wave_format::Format;

/// An endpoint of two channels: exclusive use is allowed and takes no precedence.
fn endpoint(no: u32, flow: Flow, state: u32) -> Endpoint
    requires { is_state state ≡ true }
    ensures state { is_state result.state ≡ true }
    ensures format { IsValid result.format }
{
    Endpoint {
        no: EndpointNo(no),
        flow,
        state,
        format: Format {
            channels: 2,
            rate: 48000,
            extensible: false,
            mask: 0,
        },
        name: Text::new(b"Speakers"),
        allow: true,
        priority: false,
    }
}

/// The flow, the state, the channels and the properties of exclusive use of an endpoint that is there.
fn told(registry: &Registry, no: u32) -> Option<(Flow, u32, u16, bool, bool)> {
    let e = registry.get(EndpointNo(no))?;
    Some((e.flow, e.state, e.format.channels, e.allow, e.priority))
}

#[test]
fn endpoints_come_and_go(rt: HostRuntime) -> Result<(), Fail> {
    let mut registry = Registry::new(rt.alloc())?;
    assert_eq!(rt; registry.last(), 0);
    assert_eq!(rt;
        registry.add(endpoint(0, Flow::Render, 1)),
        Err(Hr::E_INVALIDARG)
    );
    assert_eq!(rt; registry.add(endpoint(1, Flow::Render, 1)), Ok(()));
    assert_eq!(rt; registry.add(endpoint(4, Flow::Capture, 2)), Ok(()));
    assert_eq!(rt;
        registry.add(endpoint(4, Flow::Capture, 1)),
        Err(Hr::E_INVALIDARG)
    );
    assert_eq!(rt; registry.place(EndpointNo(4)), Some(1));
    assert_eq!(rt;
        told(&registry, 4),
        Some((Flow::Capture, 2, 2, true, false))
    );
    assert_eq!(rt; registry.remove(EndpointNo(4)), Ok(()));
    assert_eq!(rt; registry.remove(EndpointNo(4)), Err(Hr::E_NOTFOUND));
    assert_eq!(rt; registry.last(), 4);
    for no in 5..12 {
        assert_eq!(rt; registry.add(endpoint(no, Flow::Render, 8)), Ok(()));
    }
    assert_eq!(rt;
        registry.add(endpoint(12, Flow::Render, 1)),
        Err(Hr::ENDPOINTS_FULL)
    );
    assert_eq!(rt; registry.endpoints().len(), ENDPOINTS);
    assert_eq!(rt; registry.last(), 11);
    Ok(())
}

#[test]
fn endpoints_change(rt: HostRuntime) -> Result<(), Fail> {
    let mut registry = Registry::new(rt.alloc())?;
    assert_eq!(rt; registry.add(endpoint(2, Flow::Render, 1)), Ok(()));
    assert_eq!(rt; registry.add(endpoint(3, Flow::Capture, 8)), Ok(()));
    assert_eq!(rt; registry.set_state(EndpointNo(2), 4), Ok(()));
    assert_eq!(rt; registry.set_state(EndpointNo(2), 3), Err(Hr::E_INVALIDARG));
    assert_eq!(rt; registry.set_state(EndpointNo(1), 3), Err(Hr::E_NOTFOUND));
    let mut other = endpoint(2, Flow::Capture, 1);
    other.format.channels = 1;
    other.name = Text::new(b"Headphones");
    other.allow = false;
    other.priority = true;
    assert_eq!(rt; registry.replace(other), Ok(()));
    assert_eq!(rt; told(&registry, 2), Some((Flow::Render, 4, 1, false, true)));
    assert_eq!(rt;
        told(&registry, 3),
        Some((Flow::Capture, 8, 2, true, false))
    );
    let name = registry.get(EndpointNo(2)).map(|e| e.name);
    assert!(rt; name.is_some_and(|name| name.as_bytes() == b"Headphones".as_slice()));
    assert_eq!(rt;
        registry.replace(endpoint(1, Flow::Render, 1)),
        Err(Hr::E_NOTFOUND)
    );
    Ok(())
}

#[test]
fn endpoints_are_listed(rt: HostRuntime) -> Result<(), Fail> {
    let mut registry = Registry::new(rt.alloc())?;
    assert_eq!(rt; registry.add(endpoint(1, Flow::Render, 1)), Ok(()));
    assert_eq!(rt; registry.add(endpoint(2, Flow::Capture, 1)), Ok(()));
    assert_eq!(rt; registry.add(endpoint(3, Flow::Render, 8)), Ok(()));
    for (flow, mask, numbers) in [
        (2, 15, [1, 2, 3].as_slice()),
        (0, 15, [1, 3].as_slice()),
        (0, 9, [1, 3].as_slice()),
        (1, 1, [2].as_slice()),
        (2, 8, [3].as_slice()),
        (2, 6, [].as_slice()),
        (3, 15, [].as_slice()),
    ] {
        let mut out = Vec::with_capacity(rt.alloc(), ENDPOINTS)?;
        registry.enumerate(flow, mask, &mut out);
        assert!(rt; out.iter().map(|no| no.0).eq(numbers.iter().copied()));
    }
    Ok(())
}
