// Laws of the definitions.
ghost use Rattle.chk_rotate.specs.PlaceLaws.{ForgettingKeepsLater, GoingBackKeepsEarlier};
ghost use Rattle.chk_rotate.specs.PlaceLaws.{PlaceIsInNewest};

/// What holds of the places of offsets that a reader knows: each lies in the newest known
/// generation that begins at or below it, and neither `forget` nor `back` changes those that are
/// still known. It runs nothing.
pub fn law_places()
    ensures newest { PlaceIsInNewest }
    ensures forgotten { ForgettingKeepsLater }
    ensures back { GoingBackKeepsEarlier }
{}
