//! The book of ducking: what is known of each session, and the rule.

ghost use Rattle.std.specs.Prelude.{◌≡◌, ◌≤◌, IfOk, true};
ghost use Rattle.ducking.specs.Ducking.{count_of, level_of, may_set, new_book, with_row, with_rule, without};

use crate::DuckRow;
use crate::rows::place_of;
use crate::rules::{RULE_80, RULE_NOTHING, reduced};
use ca_base::limits::{MAX_LEVEL, SESSIONS};
use ca_base::{NoMemory, SessionNo};
use std::alloc::Global;
use std::marker::Model;

/// The rows of the sessions, in the order in which they came, and the rule. Its memory is taken when it is made, and no
/// call takes more.
#[derive(Drop)]
pub struct DuckBook {
    rows: Vec<DuckRow>,
    rule: u8,
    /// How many communications sessions are active.
    count: u32,
}

impl Model for DuckBook {
    ghost use Rattle.ducking.specs.Ducking.{DuckState};
    ghost use Rattle.ducking.specs.Book.{IsBook};

    ghost Value = { DuckState };

    ghost view = { λ b. record { rows = b.rows.items; rule = b.rule } };

    ghost invariant = { IsBook };
}

impl DuckBook {
    /// No sessions, the rule that reduces by 80 %, and memory for as many sessions as there may be.
    pub fn new(alloc: Global) -> Result<DuckBook, NoMemory>
        ensures { IfOk result (λ b. b ≡ new_book) }
    {
        let rows = Vec::with_capacity(alloc, SESSIONS)?;
        Ok(DuckBook {
            rows,
            rule: RULE_80,
            count: 0,
        })
    }

    /// Puts a row in the place of that of its session, or behind the others if the session isn't there. There is room
    /// for 48 sessions. It takes no memory.
    pub fn set(&mut self, row: DuckRow)
        requires room { may_set row.session.0 self.old ≡ true }
        ensures { self.new ≡ with_row row self.old }
    {
        match place_of(&self.rows, row.session) {
            Some(at) => {
                self.count = self.count - self.rows[at].share() + row.share();
                self.rows[at] = row;
            }
            None => {
                self.count += row.share();
                self.rows.push_reserved(row);
            }
        }
    }

    /// Removes the row of a session. If the session isn't there, nothing changes.
    pub fn remove(&mut self, s: SessionNo)
        ensures { self.new ≡ without s.0 self.old }
    {
        if let Some(at) = place_of(&self.rows, s) {
            self.count -= self.rows[at].share();
            self.rows.retain(|row| row.session != s);
        }
    }

    /// Sets the rule (0 to 3).
    pub fn set_rule(&mut self, rule: u8)
        requires { rule ≤ RULE_NOTHING }
        ensures { self.new ≡ with_rule rule self.old }
    {
        self.rule = rule;
    }

    /// The duck level of a session: that of the rule if it is ducked, or else 65536, which changes nothing.
    pub fn level(&self, s: SessionNo) -> u32
        ensures { result ≡ level_of s.0 self.now }
    {
        match place_of(&self.rows, s) {
            Some(at) if self.count > 0 && self.rows[at].may_be_ducked() => reduced(self.rule),
            _ => MAX_LEVEL,
        }
    }

    /// How many communications sessions are active.
    pub fn count(&self) -> u32
        ensures { result ≡ count_of self.now.rows }
    {
        self.count
    }
}
