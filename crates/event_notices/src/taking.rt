//! Notices that are taken.

ghost use Rattle.std.specs.Prelude.{◌≡◌, ◌+◌, ◌≤◌, [], ◌++◌, length, min, take};
ghost use Rattle.std.specs.Vec.{vec_capacity, vec_len};
ghost use Rattle.event_notices.specs.Notices.{first_notices, taken};

use crate::{Notice, NoticeQueue};
use ca_base::limits::NOTICES;
use std::mem;

/// Adds notices that fit.
fn add(out: &mut Vec<Notice>, ns: &[Notice])
    requires { vec_len out.old + length ns.now ≤ vec_capacity out.old }
    ensures items { out.new.items ≡ out.old.items ++ ns.now }
    ensures keeps { vec_capacity out.old ≤ vec_capacity out.new }
{
    if out.extend_from_slice(ns).is_err() {
        unreachable!();
    }
}

/// Adds the first `count` of a list that is in two pieces.
fn add_first(front: &[Notice], back: &[Notice], count: usize, out: &mut Vec<Notice>)
    requires there { count ≤ length front.now + length back.now }
    requires room { vec_len out.old + count ≤ vec_capacity out.old }
    ensures items { out.new.items ≡ out.old.items ++ take count (front.now ++ back.now) }
    ensures keeps { vec_capacity out.old ≤ vec_capacity out.new }
{
    let from_front = count.min(front.len());
    add(out, &front[..from_front]);
    add(out, &back[..count - from_front]);
}

impl NoticeQueue {
    /// Moves the first `max` notices out, or all if there are fewer, and answers how many were lost since the last
    /// time. `out` is empty and has room for them, so it takes no memory.
    pub fn take(&mut self, max: u32, out: &mut Vec<Notice>) -> u64
        requires empty { out.old.items ≡ [] }
        requires room { min max NOTICES ≤ vec_capacity out.old }
        ensures lost { result ≡ self.old.lost }
        ensures notices { out.new.items ≡ first_notices max self.old }
        ensures few { length out.new.items ≤ NOTICES }
        ensures keeps { vec_capacity out.old ≤ vec_capacity out.new }
        ensures after { self.new ≡ taken max self.old }
    {
        let count = self.kept.len().min(max as usize);
        let (front, back) = self.kept.as_slices();
        add_first(front, back, count, out);
        self.kept.truncate_front(self.kept.len() - count);
        mem::replace(&mut self.lost, 0)
    }
}
