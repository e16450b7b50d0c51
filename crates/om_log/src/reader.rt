//! The reader of a log.

ghost use Rattle.std.specs.Prelude.{◌≡◌, ◌⊎◌, List, ℕ, Ok, Err, IfOk, IfErr};
ghost use Rattle.om_log.specs.Faults.{IsFault};
ghost use Rattle.om_log.specs.Grammar.{IsLog};

use crate::body::entries_of;
use crate::fault::LogFault;
use crate::header::header_of;
use crate::log::Log;
use std::alloc::Global;

/// The log that `file` spells. Its writes stay in the file.
pub fn read_log<'a>(alloc: Global, file: &'a [u8]) -> Result<Log<'a>, LogFault>
    ensures log { IfOk result (λ log. IsLog file.now log) }
    ensures fault { IfErr result (λ fault. (fault ≡ LogFault.NoMemory) ⊎ IsFault file.now fault) }

    // Nothing else is answered, but that no memory was left.
    ensures reads { (log : Log) → IsLog file.now log
        → (result ≡ Ok log) ⊎ (result ≡ Err LogFault.NoMemory) }
    ensures refuses { (fault : LogFault) → IsFault file.now fault
        → (result ≡ Err fault) ⊎ (result ≡ Err LogFault.NoMemory) }
{
    read(alloc, file)
}

/// The header and the entries, in one pass.
fn read<'a>(alloc: Global, file: &'a [u8]) -> Result<Log<'a>, LogFault>
    ensures log { IfOk result (λ log. IsLog file.now log) }
    ensures fault { IfErr result (λ fault. (fault ≡ LogFault.NoMemory) ⊎ IsFault file.now fault) }
{
    let (start, body) = header_of(file)?;
    let entries = entries_of(alloc, body, file.len())?;
    Ok(Log { start, entries })
}
