//! A law of the definitions.
ghost use Rattle.chk_site_log.specs.Lines.{MinuteApart};

/// Whatever happens at an address or a file, two lines about it lie a minute apart. It runs nothing.
pub fn law_minute()
    ensures apart { MinuteApart }
{}
