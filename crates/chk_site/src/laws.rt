// Laws of the definitions.
ghost use Rattle.chk_site.specs.CutLaws.{CutStays, EachCut, LastCut, OneChain};

/// What holds of the places at which a reader of a log may stop.
pub fn law_cut_places()
    ensures one_chain { OneChain }
    ensures stays { CutStays }
    ensures each { EachCut }
    ensures last { LastCut }
{}
