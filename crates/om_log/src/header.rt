//! The header of a log: the letters OTL, the version, and the regions.

ghost use Rattle.std.specs.Prelude.{◌≡◌, ◌≤◌, Some, length, IfErr, IfNone, IfOk};
ghost use Rattle.om_log.specs.Faults.{has_letters, has_version, header_fault, start_in};
ghost use Rattle.om_log.specs.Steps.{IsHeader};

use crate::fault::LogFault;
use crate::start::Start;
use om_base::word_at;

/// The size of the header, in bytes.
pub(crate) const HEADER: usize = 20;

/// The version byte: the digit 1.
const VERSION: u8 = b'1';

/// The regions of the header, and the bytes behind it.
pub(crate) fn header_of(file: &[u8]) -> Result<(Start, &[u8]), LogFault>
    ensures header { IfOk result (λ x. IsHeader file.now x.0 x.1.now) }
    ensures fault { IfErr result (λ fault. header_fault file.now ≡ Some fault) }
{
    if let Some(fault) = fault_of(file) {
        return Err(fault);
    }
    let (_, body) = file.split_at(HEADER);
    Ok((start_of(file), body))
}

/// The fault of the first rule of the header that the file breaks.
#[tactic(auto, unfolding(crate::specs::Faults::header_fault, crate::specs::Regions::start_fault))]
fn fault_of(file: &[u8]) -> Option<LogFault>
    ensures fault { result ≡ header_fault file.now }
    ensures whole { IfNone result (20 ≤ length file.now) }
{
    if file.len() < HEADER {
        return Some(LogFault::Short { at: 0 });
    }
    if !begins_with_letters(file) {
        return Some(LogFault::Magic);
    }
    if !has_known_version(file) {
        return Some(LogFault::Version);
    }
    start_of(file).fault()
}

/// Whether the file begins with the letters OTL.
fn begins_with_letters(file: &[u8]) -> bool
    requires { 20 ≤ length file.now }
    ensures { result ≡ has_letters file.now }
{
    file[0] == b'O' && file[1] == b'T' && file[2] == b'L'
}

/// Whether the file is of the version that is read.
fn has_known_version(file: &[u8]) -> bool
    requires { 20 ≤ length file.now }
    ensures { result ≡ has_version file.now }
{
    file[3] == VERSION
}

/// The four numbers of the header.
fn start_of(file: &[u8]) -> Start
    ensures { result ≡ start_in file.now }
{
    Start {
        stack_low: word_at(file, 4),
        stack_size: word_at(file, 8),
        heap_low: word_at(file, 12),
        heap_size: word_at(file, 16),
    }
}
