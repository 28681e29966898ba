ghost use Rattle.std.specs.Prelude.{◌≡◌, ◌⊎◌, ◌<◌, length, IfOk, IfErr, IfSome};
ghost use Rattle.schedules.specs.declared.fault.ScheduleFault.TheVariants.{NoMemory};

use crate::fault::PlayFault;
use schedules::ScheduleFault;
use std::alloc::Global;
use std::io::{ErrorKind, Read};

const CHUNK: usize = 65536;

/// Reads to the end, through the chunk.
fn read_through<R: Read>(
    alloc: Global,
    reader: &mut R,
    chunk: &mut [u8],
) -> Result<Vec<u8>, PlayFault>
    requires { 0 < length chunk.old }
    ensures bytes { IfOk result (λ bytes. IfSome (R.remaining reader.old) (λ input. bytes.items ≡ input)) }
    ensures only { IfErr result (λ fault. (fault ≡ PlayFault.Read) ⊎ (fault ≡ PlayFault.Refused NoMemory)) }
{
    let mut input = Vec::new(alloc);
    for _ in 0..u64::MAX {
        match reader.read(chunk) {
            Ok(0) => return Ok(input),
            Ok(n) => {
                let (front, _) = chunk.split_at(n);
                input.extend_from_slice(front)?;
            }
            Err(e) => {
                if e.kind() != ErrorKind::Interrupted {
                    return Err(PlayFault::Read);
                }
            }
        }
    }
    // More bytes than there are addresses.
    Err(PlayFault::Refused(ScheduleFault::NoMemory))
}

/// Reads to the end. A read that is interrupted is made again.
///
/// `Read` if a read failed otherwise, `Refused` of `NoMemory` if memory ran out.
pub fn read_input<R: Read>(alloc: Global, reader: &mut R) -> Result<Vec<u8>, PlayFault>
    ensures bytes { IfOk result (λ bytes. IfSome (R.remaining reader.old) (λ input. bytes.items ≡ input)) }
    ensures only { IfErr result (λ fault. (fault ≡ PlayFault.Read) ⊎ (fault ≡ PlayFault.Refused NoMemory)) }
{
    let mut chunk = vec![in alloc; 0u8; CHUNK]?;
    read_through(alloc, reader, chunk.as_mut_slice())
}
