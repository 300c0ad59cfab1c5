//! Real files: what they hold, which no clause says, and how they fail.
use crate::counts::Counts;
use crate::file_disk::FileDisk;
use crate::file_in::FileIn;
use crate::file_out::FileOut;
use bc_disk::disk::{Disk, Failed};
use bc_disk::stream::{Sink, Source};
use std::fs::{self, File};
use std::io::{self, ErrorKind, Read, Write};
use std::process::Abort;
use std::test::Fail;

fn counts(calls: u64, faults: u64) -> Counts {
    Counts { calls, faults }
}

// Writes a sector of this byte.
fn put<D: Disk + Drop + Send>(rt: &impl Abort, disk: &mut D, at: u64, byte: u8) -> bool {
    assert!(rt; at < disk.sectors());
    disk.write(at, &[byte; 512]).is_ok()
}

// The byte that this sector is full of.
fn get<D: Disk + Drop + Send>(rt: &impl Abort, disk: &mut D, at: u64) -> Option<u8> {
    assert!(rt; at < disk.sectors());
    let mut bytes = [0; 512];
    disk.read(at, &mut bytes).ok()?;
    assert!(rt; bytes.iter().all(|byte| *byte == bytes[0]));
    Some(bytes[0])
}

// A stream whose calls are interrupted, good and failing in turn.
#[derive(Drop)]
struct Rough(u32);

impl Rough {
    fn turn(&mut self) -> io::Result<()> {
        self.0 = self.0.wrapping_add(1);
        match self.0 % 3 {
            1 => Err(ErrorKind::Interrupted.into()),
            2 => Ok(()),
            _ => Err(ErrorKind::Other.into()),
        }
    }
}

impl Read for Rough {
    fn read(&mut self, buf: &mut [u8]) -> io::Result<usize> {
        self.turn()?;
        Ok(buf.len())
    }
}

impl Write for Rough {
    fn write(&mut self, buf: &[u8]) -> io::Result<usize> {
        self.turn()?;
        Ok(buf.len())
    }

    fn flush(&mut self) -> io::Result<()> {
        self.turn()
    }
}

#[test]
fn a_disk_has_whole_sectors(rt: HostRuntime) -> Result<(), Fail> {
    const PATH: &str = "bc_file_disk.img";
    fs::write(&rt, PATH, [7u8; 3 * 512 + 100].as_slice())?;
    let mut disk = FileDisk::open(&rt, PATH)?;
    assert_eq!(rt; disk.sectors(), 3);
    assert!(rt; put(&rt, &mut disk, 1, 8));
    assert!(rt; disk.barrier().is_ok());

    let bytes = fs::read(&rt, PATH)?;
    assert_eq!(rt; bytes.len(), 3 * 512 + 100);
    for (i, byte) in bytes.iter().enumerate() {
        assert_eq!(rt; *byte, if i / 512 == 1 { 8 } else { 7 }, "at {i}");
    }
    let mut other = FileDisk::open(&rt, PATH)?;
    for (at, byte) in [(0, 7), (1, 8), (2, 7)] {
        assert_eq!(rt; get(&rt, &mut other, at), Some(byte));
    }
    assert_eq!(rt; disk.counts(), counts(2, 0));
    assert_eq!(rt; other.counts(), counts(3, 0));
    fs::remove_file(&rt, PATH)?;
    Ok(())
}

#[test]
fn a_disk_fails(rt: HostRuntime) -> Result<(), Fail> {
    const PATH: &str = "bc_file_fails.img";
    assert!(rt; FileDisk::open(&rt, PATH).is_err());
    fs::write(&rt, PATH, [7u8; 1024].as_slice())?;
    let mut disk = FileDisk::from_file(File::open(&rt, PATH)?)?;
    assert_eq!(rt; disk.sectors(), 2);
    assert!(rt; !put(&rt, &mut disk, 0, 8));
    assert_eq!(rt; get(&rt, &mut disk, 0), Some(7));
    fs::write(&rt, PATH, [7u8; 1000].as_slice())?;
    assert_eq!(rt; get(&rt, &mut disk, 1), None);
    assert_eq!(rt; disk.counts(), counts(3, 2));
    fs::remove_file(&rt, PATH)?;
    Ok(())
}

#[test]
fn a_file_comes_in_pieces(rt: HostRuntime) -> Result<(), Fail> {
    const PATH: &str = "bc_file_in.txt";
    fs::write(&rt, PATH, b"12345".as_slice())?;
    let mut source = FileIn::new(File::open(&rt, PATH)?);
    let mut into = [0; 3];
    for (many, bytes) in [(2, b"12"), (2, b"34"), (1, b"54"), (0, b"54")] {
        assert_eq!(rt; source.next(&mut into[..2]), Ok(many));
        assert_eq!(rt; into[..2], bytes[..]);
    }
    assert_eq!(rt; source.counts(), counts(4, 0));
    fs::remove_file(&rt, PATH)?;
    Ok(())
}

#[test]
fn a_file_takes_what_is_put(rt: HostRuntime) -> Result<(), Fail> {
    const PATH: &str = "bc_file_out.txt";
    let mut sink = FileOut::new(File::create(&rt, PATH)?);
    for (piece, text) in [("done", "done"), ("", "done"), ("\n", "done\n")] {
        assert_eq!(rt; sink.put(piece.as_bytes()), Ok(piece.len()));
        assert_eq!(rt; fs::read_to_string(&rt, PATH)?.as_str(), text);
    }
    assert_eq!(rt; sink.counts(), counts(3, 0));

    let mut read_only = FileOut::new(File::open(&rt, PATH)?);
    assert!(rt; read_only.put(b"more").is_err());
    let mut write_only = FileIn::new(File::create(&rt, PATH)?);
    assert!(rt; write_only.next(&mut [0; 1]).is_err());
    assert_eq!(rt; read_only.counts(), counts(1, 1));
    assert_eq!(rt; write_only.counts(), counts(1, 1));
    fs::remove_file(&rt, PATH)?;
    Ok(())
}

#[test]
fn an_interrupted_call_is_tried_again(rt: HostRuntime) {
    let mut source = FileIn::new(Rough(0));
    for outcome in [Ok(4), Err(Failed), Ok(4), Err(Failed)] {
        assert_eq!(rt; source.next(&mut [0; 4]), outcome);
    }
    assert_eq!(rt; source.counts(), counts(4, 2));

    // Each write is good, and the flush behind it fails.
    let mut sink = FileOut::new(Rough(0));
    assert!(rt; sink.put(b"some").is_err());
    assert!(rt; sink.put(b"more").is_err());
    assert_eq!(rt; sink.counts(), counts(2, 2));
}
