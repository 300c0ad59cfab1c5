//! The entries of a journal.
ghost use Rattle.std.specs.Prelude.{◌≡◌, ◌<◌, length, slice_get};

use bc_jset::JEntry;
use bc_record::Placed;
use std::marker::Model;

/// The entries of a journal: those that count, and all that are found.
#[derive(Drop)]
pub struct Journal {
    pub(crate) all: Vec<Placed<JEntry>>,
    pub(crate) order: Vec<usize>,
}

impl Model for Journal {
    ghost use Rattle.std.specs.Prelude.{◌<◌, All, length};
    ghost use Rattle.bc_entries.specs.Journal.{Journal};
    ghost use Rattle.bc_entries.specs.Lists.{picked};

    ghost Value = { Journal };

    ghost view = { λ j. record { entries = picked j.all.items j.order.items; all = j.all.items } };

    ghost invariant = { λ j. All (λ place. place < length j.all.items) j.order.items };
}

impl Journal {
    /// How many entries count: one at least, where the journal was read.
    pub fn len(&self) -> usize
        ensures { result ≡ length self.now.entries }
    {
        self.order.len()
    }

    /// The entry that counts at this place, from the oldest on.
    pub fn entry(&self, i: usize) -> &Placed<JEntry>
        requires { i < length self.now.entries }
        ensures { slice_get self.now.entries i ≡ Some result.now }
    {
        let place = self.order[i];
        &self.all[place]
    }

    /// All entries that are found, in a lower bucket first.
    pub fn all(&self) -> &[Placed<JEntry>]
        ensures { result.now ≡ self.now.all }
    {
        self.all.as_slice()
    }
}
