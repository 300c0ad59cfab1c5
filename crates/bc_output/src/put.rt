//! Puts a whole text to a sink.
ghost use Rattle.std.specs.Prelude.{◌≡◌, Err, OnOk, IfErr};
ghost use Rattle.bc_disk.specs.Device.{HasRisen};
ghost use Rattle.bc_output.specs.Put.{Takes, IsWriteFault};

use bc_disk::disk::Failed;
use bc_disk::stream::Sink;

/// Why a sink didn't take the whole of a text.
#[derive(Clone, Copy, Debug, PartialEq, Eq, Drop)]
pub enum WriteFault {
    /// A put failed.
    Failed,
    /// A put of a piece that isn't empty took nothing.
    TookNothing,
}

/// Puts a text, in as many puts as the sink takes for it; an empty text in none.
///
/// The first put that fails, or that takes nothing, ends this with an error. The sink has then
/// taken the bytes before that put, which are fewer than the whole text.
pub fn put_all<K: Sink>(out: &mut K, text: &[u8]) -> Result<(), WriteFault>
    ensures ok { OnOk result (Takes text.now (K.facts out.old) (K.facts out.new)) }
    ensures fault { IfErr result
        (λ cause. IsWriteFault cause text.now (K.facts out.old) (K.facts out.new)) }
    ensures risen { result ≡ Err WriteFault.Failed →
        HasRisen (K.facts out.old).faults (K.facts out.new).faults }
{
    let mut taken = 0;
    while taken < text.len() {
        match out.put(&text[taken..]) {
            Ok(0) => return Err(WriteFault::TookNothing),
            Ok(count) => taken += count,
            Err(Failed) => return Err(WriteFault::Failed),
        }
    }
    Ok(())
}
