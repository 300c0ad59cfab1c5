//! What a line is answered where its request was refused.
ghost use Rattle.std.specs.Prelude.{◌≡◌, IfErr, IfOk};
ghost use Rattle.bc_script.specs.Answer.{IsPrintable};
ghost use Rattle.bc_cached_serve.specs.Refusals.{IsNoNode, IsNumberOf, IsRefusedAs, IsUnsound, NamesNoNode};

use bc_flush::bc_request::error::RequestError;
use bc_node::NodeError;
use bc_script::answer::{Answer, Refusal};

// The number by which an answer says why bytes are no node.
fn number_of(why: NodeError) -> u8
    requires { IsNoNode why }
    ensures { IsNumberOf why result }
{
    match why {
        NodeError::First(_) => 1,
        NodeError::Ranges => 2,
        _ => unreachable!(),
    }
}

/// What a line is answered whose request was refused so. `Err` gives a refusal back that no answer
/// says.
pub(crate) fn refused(error: RequestError) -> Result<Answer, RequestError>
    requires { NamesNoNode error }
    ensures printable { IfOk result IsPrintable }
    ensures ok { IfOk result (IsRefusedAs error) }
    ensures err { IfErr result (λ why. (why ≡ error) × IsUnsound error) }
{
    let why = match error {
        RequestError::OutOfRange => Refusal::OutOfRange,
        RequestError::Fault(device) => Refusal::Fault(device),
        RequestError::Halted(device) => Refusal::Halted(device),
        RequestError::Memory => Refusal::Memory,
        RequestError::Node { bucket, why } => Refusal::Node {
            bucket,
            why: number_of(why),
        },
        RequestError::Busy | RequestError::Outside | RequestError::Missing | RequestError::Lost =>
            return Err(error),
    };
    Ok(Answer::Refused(why))
}
