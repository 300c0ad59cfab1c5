//! How large a stream is.
ghost use Rattle.std.specs.Prelude.{IfOk};
ghost use Rattle.bc_file.specs.Size.{IsSizeOf};

use std::io::{self, Seek, SeekFrom};

/// How many bytes a stream has, found by a seek to its end, where it is left. Fails where that seek
/// does, as on a pipe. Of a stream whose bytes and position are known the number is theirs.
pub(crate) fn size_of<S: Seek>(stream: &mut S) -> io::Result<u64>
    ensures { IfOk result (IsSizeOf (S.stream_position stream.old) (S.stream_bytes stream.old)) }
{
    stream.seek(SeekFrom::End(0))
}
