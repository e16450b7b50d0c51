//! How many segments there are.

ghost use Rattle.std.specs.Prelude.{◌≡◌};
ghost use Rattle.om_info.specs.Text.{filled_in};

use om_elf::Segment;

/// How many of some segments have more than 0 bytes.
pub fn count_filled(segments: &[Segment<'_>]) -> usize
    ensures { result ≡ filled_in segments.now }
{
    segments.iter().filter(|segment| segment.memsz > 0).count()
}
