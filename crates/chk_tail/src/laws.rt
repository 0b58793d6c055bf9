// Laws of the definitions.
ghost use Rattle.chk_tail.specs.EachRead.{EachReadTakesMost};
ghost use Rattle.chk_tail.specs.Taking.{ReaderTakesMost};

/// A reader that stands where it may stop takes, of what an honest read gave, the bytes up to the
/// last place of that generation at which it may stop, among those that it asked for and that were
/// there. So each read of a step does, of the generation that it read. It runs nothing.
pub fn reader_takes_most()
    ensures most { ReaderTakesMost }
    ensures reads { EachReadTakesMost }
{}
