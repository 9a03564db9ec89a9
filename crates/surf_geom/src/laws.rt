//! What a measure is, as a law.
ghost use Rattle.surf_geom.specs.Laws.{MeasuresAreGreatest, MeasuresAreOne};

/// A measure is the only number of units that are at most as long as the distance, where one unit
/// more is longer.
pub fn law_of_measures()
    ensures greatest { MeasuresAreGreatest }
    ensures one { MeasuresAreOne }
{}
