//! Registrations (IMMDeviceEnumerator::RegisterEndpointNotificationCallback and the like).

ghost use Rattle.std.specs.Prelude.{◌≡◌, ◌==◌, filter, not};
ghost use Rattle.std.specs.List.{list_any};
ghost use Rattle.event_notices.specs.Calls.{Registers, Unregisters};
ghost use Rattle.event_notices.specs.Notices.{is_numbered};

use crate::kinds::{CLASS_DEVICES, CLASS_PARTS};
use crate::{NoticeFault, NoticeQueue, Registration};
use ca_base::Hr;
use ca_base::limits::MAX_COUNT;

/// Whether one of these registrations has this number.
fn is_numbered(registrations: &[Registration], no: u64) -> bool
    ensures { result ≡ list_any (is_numbered no) registrations.now }
{
    registrations.iter().any(|r| r.no == no)
}

/// Takes the registration of this number away.
fn remove_numbered(registrations: &mut Vec<Registration>, no: u64)
    ensures { registrations.new.items ≡ filter (λ r. not (is_numbered no r)) registrations.old.items }
{
    registrations.retain(|r| r.no != no);
}

impl NoticeQueue {
    /// Registers for the notices of a class about one subject, or about all with 0, and answers the number of the
    /// registration. A refusal, and `NoMemory`, change nothing.
    ///
    /// Errors: E_INVALIDARG if there is no such class, WORN if 2^62 were made, and else `NoMemory` if there is none
    /// for one more.
    pub fn register(&mut self, class: u8, subject: u64) -> Result<u64, NoticeFault>
        ensures { Registers class subject result self.old self.new }
    {
        if class < CLASS_DEVICES || class > CLASS_PARTS {
            return Err(NoticeFault::Refused(Hr::E_INVALIDARG));
        }
        if self.made >= MAX_COUNT {
            return Err(NoticeFault::Refused(Hr::WORN));
        }
        let no = self.made + 1;
        match self.registrations.push(Registration { no, class, subject }) {
            Ok(()) => {
                self.made = no;
                Ok(no)
            }
            Err(_) => Err(NoticeFault::NoMemory),
        }
    }

    /// Takes a registration away. The notices that it matched stay.
    ///
    /// Errors: E_NOTFOUND if it isn't there, and then nothing is changed.
    pub fn unregister(&mut self, no: u64) -> Result<(), Hr>
        ensures { Unregisters no result self.old self.new }
    {
        if !is_numbered(&self.registrations, no) {
            return Err(Hr::E_NOTFOUND);
        }
        remove_numbered(&mut self.registrations, no);
        Ok(())
    }
}
