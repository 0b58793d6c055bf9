//! A law of the definitions.
ghost use Rattle.chk_site_rotations.specs.Waits.{WaitsForQuiet};

/// A file whose holding is over had one size at all looks of the last three seconds, or was found renamed
/// sixty seconds before or earlier. It runs nothing.
pub fn law_waits()
    ensures waits { WaitsForQuiet }
{}
