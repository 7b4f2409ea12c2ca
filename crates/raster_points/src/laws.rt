ghost use Rattle.raster_points.specs.Laws.{HasOneDown, DownRises, DownRoundsItself, RasterRoundsBack, RasterIsNormal};

/// A side has one greatest normal place, which is its own where it is normal, and a longer side has no lesser
/// one.
pub fn one_greatest_normal_place()
    ensures one { HasOneDown }
    ensures rises { DownRises }
    ensures normal { DownRoundsItself }
{}

/// The raster places of a side are the places that come back where what they leave of the side is rounded
/// down, and then what that leaves. Each is normal.
pub fn raster_places_round_back()
    ensures back { RasterRoundsBack }
    ensures normal { RasterIsNormal }
{}
