//! A command over two files.
ghost use Rattle.std.specs.Prelude.{◌≡◌, ◌≢◌, ◌<◌, ◌≤◌, ◌↔◌, ◌⊎◌, length, drop, Ok, Err, OnOk, OnErr};
ghost use Rattle.bc_prog.specs.Done.{HasAskedNothing, IsDone};
ghost use Rattle.bc_prog.specs.Refusal.{IsRefused};
ghost use Rattle.bc_prog.specs.declared.refusal.Refusal.TheVariants as refusals;
ghost use Rattle.bc_top.specs.Top.{IsServe, SaysNone};

use crate::refusal::{Refusal, refuse};
use bc_disk::disk::Device;
use bc_disk::stream::{Sink, Source};
use bc_file::file_disk::FileDisk;
use bc_output::status::Status;
use bc_top::top::bcache;
use std::alloc::Global;
use std::fs::File;
use std::rt::Files;
use std::sync::Wait;

// How many words a command line has at least: two files and a command.
const FEWEST_WORDS: usize = 3;

// The disk over the file of this device.
fn open_disk<R: Files<File = File>>(rt: &R, path: &str, device: Device) -> Result<FileDisk, Refusal>
    ensures { OnErr result (result ≡ Err (refusals.NotOpened device)) }
{
    FileDisk::open(rt, path).map_err(|_| Refusal::NotOpened(device))
}

// The cache device and the backing device, which the first two words name.
fn open_disks<R: Files<File = File>>(
    rt: &R,
    words: &[String],
) -> Result<(FileDisk, FileDisk), Refusal>
    ensures ok { OnOk result (3 ≤ length words.now) }
    ensures few { (result ≡ Err refusals.Usage) ↔ (length words.now < 3) }
    ensures memory { result ≢ Err refusals.Memory }
{
    if words.len() < FEWEST_WORDS {
        return Err(Refusal::Usage);
    }
    let cache = open_disk(rt, &words[0], Device::Cache)?;
    let backing = open_disk(rt, &words[1], Device::Backing)?;
    Ok((cache, backing))
}

/// Runs the command that the words from the third on say, over the files that the first two name,
/// and answers the status that the program ends with.
///
/// With fewer than three words that is `Usage`, which is put. Then the cache file is opened, and
/// then the backing file: the first that can't be opened is a fault of its device.
pub fn run<R: Files<File = File> + Wait, S: Source, K: Sink>(
    rt: &R,
    alloc: Global,
    words: &[String],
    trace: &mut S,
    out: &mut K,
) -> Status
    ensures few { length words.now < 3
        → IsRefused refusals.Usage result (K.facts out.old) (K.facts out.new) }
    ensures usage { result ≡ Status.Usage → SaysNone (drop 2 words.now) }
    ensures unknown { SaysNone (drop 2 words.now) → (result ≡ Status.Usage)
        ⊎ (result ≡ Status.Device) ⊎ (result ≡ Status.Memory) }
    ensures done { IsServe (drop 2 words.now) → result ≡ Status.Done
        → IsDone (S.facts trace.old) (S.facts trace.new) (K.facts out.old) (K.facts out.new)
        ⊎ HasAskedNothing (S.facts trace.old) (S.facts trace.new) (K.facts out.old)
        (K.facts out.new) }
{
    match open_disks(rt, words) {
        Ok((cache, backing)) => bcache(rt, alloc, &words[2..], trace, cache, backing, out).status,
        Err(refusal) => refuse(refusal, out),
    }
}
