//! The law of sewing what was cut.
ghost use Rattle.surf_sew.specs.Laws.{OpenedAreReread, LimitsAreKept, CopiesAreReread, OpenedAreSewn, LinesAreSewn};
ghost use Rattle.surf_sew.specs.Laws.{SewnAreReread};

/// Sewing undoes cutting. The text of an opened mesh, with the vertex of each copy in its copy
/// lines, is read as the mesh of the copies; `read_copies` gives these vertices; what is sewn by
/// them is the mesh that was cut; and what is written of that is read as the same mesh with its
/// keyword, its vertex lines and its colours.
pub fn law_of_sewing()
    ensures reread { OpenedAreReread }
    ensures limits { LimitsAreKept }
    ensures copies { CopiesAreReread }
    ensures mesh { OpenedAreSewn }
    ensures lines { LinesAreSewn }
    ensures written { SewnAreReread }
{}
