//! What is decided: a mesh is a surface or has a first fault, and so for discs and certificates.
//!
//! The definitions say what a surface is and what its first fault is. Here it is proved, by search
//! through finitely many vertices, edges and faces, that each mesh has the one or the other
//! (`law_of_meshes`), and that each certificate is valid or has a fault (`law_of_certificates`).
//! What chains of faces lead to is told by a set that grows face by face until no edge leaves it;
//! what sums of cycles reach, by elimination. No code runs in these proofs, so want of memory is
//! never the answer.
//!
//! Each law is the contract of a function that does nothing.
#![tactic(auto)]

ghost use Rattle.surf_decided.specs.Told.{BasisCertsAreTold, DiscsAreTold};
ghost use Rattle.surf_decided.specs.Told.{LoopCertsAreTold, SheetCertsAreTold, SurfacesAreTold};

/// A mesh is a surface, or it has a first fault; and it is a disc, or it has a first fault.
pub fn law_of_meshes()
    ensures surfaces { SurfacesAreTold }
    ensures discs { DiscsAreTold }
{}

/// A certificate of loops, or of a basis, is valid, or it has a first fault. One by sheets is valid
/// for a surface with positive lengths, or it has a first fault.
pub fn law_of_certificates()
    ensures loops { LoopCertsAreTold }
    ensures bases { BasisCertsAreTold }
    ensures sheets { SheetCertsAreTold }
{}
