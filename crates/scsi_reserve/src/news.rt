//! The nexuses that a change of registrations and reservations concerns.

ghost use Rattle.std.specs.Prelude.{◌≡◌, ◌≤◌, length, IfOk};
ghost use Rattle.scsi_reserve.specs.News.{is_chosen, without, told_to, due_of};

use crate::outcome::Due;
use scsi_conflict::Row;
use scsi_sense::{Attention, Nexus};
use std::alloc::{AllocError, Global};

/// Registrations of nexuses other than the caller.
#[derive(Clone, Copy)]
pub(crate) enum Others {
    All,
    /// Those with this key.
    WithKey(u64),
}

impl Others {
    /// Removes these registrations.
    pub fn take_out(self, rows: &mut Vec<Row>, nexus: &Nexus)
        ensures left { rows.new.items ≡ without self nexus.now rows.old.items }
        ensures fewer { length rows.new.items ≤ length rows.old.items }
    {
        rows.retain(|row| !self.has(nexus, row));
    }

    /// Returns whether a registration is one of them.
    pub fn has(self, nexus: &Nexus, row: &Row) -> bool
        ensures { result ≡ is_chosen self nexus.now row.now }
    {
        if row.nexus.is_same(nexus) {
            return false;
        }
        match self {
            Others::All => true,
            Others::WithKey(key) => row.key == key,
        }
    }
}

/// The unit attentions that a change establishes for the other registrants.
#[derive(Clone, Copy)]
pub(crate) struct News {
    pub others: Others,
    pub told: Attention,
    /// The attention for all but these and the caller.
    pub rest: Option<Attention>,
}

impl News {
    /// Returns the same attention for all.
    pub fn to_all(told: Attention) -> News
        ensures { result ≡ Rattle.scsi_reserve.specs.News.to_all told }
    {
        News {
            others: Others::All,
            told,
            rest: None,
        }
    }

    /// Returns the attention for a registrant.
    fn told_to(self, nexus: &Nexus, row: &Row) -> Option<Attention>
        ensures { result ≡ told_to self nexus.now row.now }
    {
        if row.nexus.is_same(nexus) {
            None
        } else if self.others.has(nexus, row) {
            Some(self.told)
        } else {
            self.rest
        }
    }

    /// Returns the attentions for these registrants.
    pub fn due(self, alloc: Global, rows: &[Row], nexus: &Nexus) -> Result<Vec<Due>, AllocError>
        ensures { IfOk result (λ list. list.items ≡ due_of self nexus.now rows.now) }
    {
        let mut list = Vec::new(alloc);
        for row in rows {
            if let Some(attention) = self.told_to(nexus, row) {
                let told = row.nexus.clone()?;
                list.push(Due {
                    nexus: told,
                    attention,
                })?;
            }
        }
        Ok(list)
    }
}
