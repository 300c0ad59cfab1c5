//! Which entries a run still needs when it starts.
ghost use Rattle.std.specs.Prelude.{◌≡◌, ◌≢◌, ◌≤◌, ◌⊎◌, [], All, Contains};
ghost use Rattle.bc_jset.specs.Entries.{FoundEntry};

use bc_entries::Journal;

/// The number of the oldest entry that has keys, or `next`, the number of the entry that comes next,
/// where none has or all that have are newer. Takes no memory; the time is linear in the number of
/// entries that count.
pub fn oldest_needed(read: &Journal, next: u64) -> u64
    ensures most { result ≤ next }
    ensures reached { (result ≡ next)
        ⊎ ((f : FoundEntry) × Contains read.now.entries f × (f.item.keys ≢ []) × (result ≡ f.item.seq)) }
    ensures needed { All (λ f. f.item.keys ≢ [] → result ≤ f.item.seq) read.now.entries }
{
    let mut low = next;
    for i in 0..read.len() {
        let e = &read.entry(i).item;
        if !e.keys.is_empty() {
            low = low.min(e.seq);
        }
    }
    low
}
