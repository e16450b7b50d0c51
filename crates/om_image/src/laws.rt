//! The law of a file that is made: its headers tell the truth. It has no code.

ghost use Rattle.om_image.specs.Found.{EverythingIsFound};

/// A reader that knows the places of the headers' fields alone finds the segments, the sections and
/// their names.
pub fn everything_is_found()
    ensures { EverythingIsFound }
{}
