//! What is known of one bucket.
ghost use Rattle.std.specs.Prelude.{◌≡◌, ◌↔◌, IsTrue};
ghost use Rattle.bc_bucket.specs.Bucket.{aged, has_data_priority, hit, is_metadata, marked, IsFree, IsReclaimable};

/// What the last walk over all keys found in a bucket, and what was added since.
#[derive(Clone, Copy, Debug, PartialEq, Eq, Drop)]
pub enum Mark {
    /// No live key points into it.
    None,
    /// It has live keys, and the backing device has the same data.
    Reclaimable,
    /// It has live keys with data that the backing device lacks.
    Dirty,
    /// It holds the superblock, the journal, priorities, the uuid table or a node of the index.
    Metadata,
}

/// What is known of a bucket. Generations count modulo 256.
#[derive(Clone, Copy, Debug, PartialEq, Eq, Drop)]
pub struct Bucket {
    /// How often it was given up.
    pub generation: u8,
    /// The generation that it has in the priority sets of the last durable journal entry.
    pub durable: u8,
    /// The oldest generation that a key into it may have.
    pub last_gc: u8,
    /// How recently it was used. The bucket with the least one is given up first.
    pub priority: u16,
    pub mark: Mark,
    /// The sectors of live keys that point into it.
    pub used: u32,
    /// How often it was given up since the opening, which is never counted modulo anything.
    pub uses: u64,
    /// How many places in it are being written and aren't named by a key yet.
    pub pins: u32,
    /// Whether it was taken from a list and isn't let go yet.
    pub held: bool,
}

impl Mark {
    /// Whether it is the mark of metadata.
    pub fn is_metadata(self) -> bool
        ensures { result ≡ is_metadata self }
    {
        self == Mark::Metadata
    }

    /// Whether nothing in the bucket is needed.
    fn is_free(self) -> bool
        ensures { IsTrue result ↔ IsFree self }
    {
        match self {
            Mark::None | Mark::Reclaimable => true,
            Mark::Dirty | Mark::Metadata => false,
        }
    }
}

impl Bucket {
    /// Whether it may be given up: nothing holds it or is written into it, it has neither dirty
    /// data nor metadata, its generation is less than 96 ahead of the oldest one that a key may
    /// have, and its uses can still be counted.
    pub fn is_reclaimable(&self) -> bool
        ensures { IsTrue result ↔ IsReclaimable self.now }
    {
        self.pins == 0
            && !self.held
            && self.mark.is_free()
            && self.generation.wrapping_sub(self.last_gc) < 96
            && self.uses < u64::MAX
    }

    // Whether bucket number k, on a device whose data begins at this bucket, has a data priority.
    pub(crate) fn has_data_priority(&self, data_from: u32, k: usize) -> bool
        ensures { result ≡ has_data_priority data_from k self.now }
    {
        !self.mark.is_metadata() && data_from as usize <= k
    }

    // With this mark and so many used sectors.
    pub(crate) fn marked(self, mark: Mark, used: u32) -> Bucket
        ensures { result ≡ marked mark used self }
    {
        let priority = if mark.is_metadata() {
            u16::MAX
        } else if self.mark.is_metadata() {
            0
        } else {
            self.priority
        };
        Bucket {
            mark,
            used,
            priority,
            ..self
        }
    }

    // After a look found data in it.
    pub(crate) fn hit(self, data_from: u32, k: usize) -> Bucket
        ensures { result ≡ hit data_from k self }
    {
        if self.has_data_priority(data_from, k) {
            Bucket {
                priority: 32_768,
                ..self
            }
        } else {
            self
        }
    }

    // One step older.
    pub(crate) fn aged(self, data_from: u32, k: usize) -> Bucket
        ensures { result ≡ aged data_from k self }
    {
        if self.has_data_priority(data_from, k) {
            Bucket {
                priority: self.priority.saturating_sub(1),
                ..self
            }
        } else {
            self
        }
    }
}
