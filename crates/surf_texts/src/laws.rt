//! Laws on the texts of answers.
ghost use Rattle.surf_texts.specs.Rereading.{WalksAreReread, OneWalkIsReread, DistancesAreReread};

/// What is printed of walks and of distances has them: the numbers on the lines are the lengths and
/// the vertices of the walks, and the vertices with their distances and parents.
pub fn law_of_reread_answers()
    ensures walks { WalksAreReread }
    ensures one_walk { OneWalkIsReread }
    ensures distances { DistancesAreReread }
{}
