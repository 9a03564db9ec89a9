//! The tables of a tree of faces.
ghost use Rattle.std.specs.Prelude.{◌≡◌, ◌∷◌, ◌++◌, [], ◌<◌, ◌^◌, length, slice_set, true, OnOk};

use surf_base::{EdgeId, FaceId, NoMemory};

/// For each face its parent, the edge to it, the place where it was listed, and its flag; and the
/// faces that were met, in order.
#[derive(Drop)]
pub(crate) struct FaceTree {
    pub(crate) parent: Vec<FaceId>,
    pub(crate) up: Vec<EdgeId>,
    pub(crate) rank: Vec<u32>,
    pub(crate) flags: Vec<bool>,
    pub(crate) seen: Vec<bool>,
    pub(crate) listed: Vec<FaceId>,
    ghost edges: { length up.items ≡ length parent.items },
    ghost ranks: { length rank.items ≡ length parent.items },
    ghost turns: { length flags.items ≡ length parent.items },
    ghost marks: { length seen.items ≡ length parent.items },
}

impl FaceTree {
    /// Hangs a new face on a face of the tree.
    pub(crate) fn hang(
        &mut self,
        face: FaceId,
        parent: FaceId,
        up: EdgeId,
        flag: bool,
    ) -> Result<(), NoMemory>
        requires face { face < length self.old.parent.items }
        requires few { length self.old.listed.items < 2 ^ 32 }
        ensures parents { OnOk result (self.new.parent.items
            ≡ slice_set self.old.parent.items face parent) }
        ensures ups { OnOk result (self.new.up.items ≡ slice_set self.old.up.items face up) }
        ensures ranks { OnOk result (self.new.rank.items ≡ slice_set self.old.rank.items face
            (length self.old.listed.items)) }
        ensures flags { OnOk result (self.new.flags.items
            ≡ slice_set self.old.flags.items face flag) }
        ensures seen { OnOk result (self.new.seen.items ≡ slice_set self.old.seen.items face true) }
        ensures listed { OnOk result (self.new.listed.items
            ≡ self.old.listed.items ++ face ∷ []) }
    {
        let place = face.index();
        self.parent[place] = parent;
        self.up[place] = up;
        self.rank[place] = self.listed.len() as u32;
        self.flags[place] = flag;
        self.seen[place] = true;
        self.listed.push(face)?;
        Ok(())
    }
}
