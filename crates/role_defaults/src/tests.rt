//! Each call once, with worked values.

use super::*;
use ca_base::values::{ROLE_COMMUNICATIONS, ROLE_CONSOLE, ROLE_MULTIMEDIA};
use ca_base::{EndpointNo, Flow, Hr, Text};
use device_registry::{Endpoint, Registry};
use std::test::Fail;
use wave_format::Format;

/// Adds an active endpoint of two channels.
fn add(registry: &mut Registry, no: u32, flow: Flow) -> Result<(), Hr> {
    registry.add(Endpoint {
        no: EndpointNo(no),
        flow,
        state: 1,
        format: Format {
            channels: 2,
            rate: 48000,
            extensible: false,
            mask: 0,
        },
        name: Text::new(b"Speakers"),
        allow: true,
        priority: true,
    })
}

#[test]
fn defaults_follow_choices_and_states(rt: HostRuntime) -> Result<(), Fail> {
    let mut registry = Registry::new(rt.alloc())?;
    let mut choices = Choices::new();
    let (render, capture) = (Flow::Render, Flow::Capture);
    assert_eq!(rt;
        choices.default_of(&registry, render, ROLE_CONSOLE),
        Err(Hr::E_NOTFOUND)
    );
    for (no, flow) in [(2, render), (3, capture), (5, render), (6, capture)] {
        assert_eq!(rt; add(&mut registry, no, flow), Ok(()));
    }
    choices.choose(render, ROLE_MULTIMEDIA, EndpointNo(5));
    choices.choose(capture, ROLE_COMMUNICATIONS, EndpointNo(6));
    for (flow, role, no) in [
        (render, ROLE_CONSOLE, 2),
        (render, ROLE_MULTIMEDIA, 5),
        (render, ROLE_COMMUNICATIONS, 2),
        (capture, ROLE_CONSOLE, 3),
        (capture, ROLE_COMMUNICATIONS, 6),
    ] {
        assert_eq!(rt;
            choices.default_of(&registry, flow, role),
            Ok(EndpointNo(no))
        );
    }
    assert_eq!(rt; registry.set_state(EndpointNo(5), 8), Ok(()));
    assert_eq!(rt;
        choices.default_of(&registry, render, ROLE_MULTIMEDIA),
        Ok(EndpointNo(2))
    );
    assert_eq!(rt; registry.set_state(EndpointNo(2), 2), Ok(()));
    assert_eq!(rt;
        choices.default_of(&registry, render, ROLE_MULTIMEDIA),
        Err(Hr::E_NOTFOUND)
    );
    assert_eq!(rt; registry.set_state(EndpointNo(5), 1), Ok(()));
    assert_eq!(rt;
        choices.default_of(&registry, render, ROLE_CONSOLE),
        Ok(EndpointNo(5))
    );
    assert_eq!(rt; registry.remove(EndpointNo(6)), Ok(()));
    assert_eq!(rt;
        choices.default_of(&registry, capture, ROLE_COMMUNICATIONS),
        Ok(EndpointNo(3))
    );
    Ok(())
}
