//! Laws of the texts of evidence.
ghost use Rattle.surf_class.specs.Texts.{EvidenceIsReread};

/// What is written with the words `null` and `odd` is read as what it was written of.
pub fn law_of_reread()
    ensures reread { EvidenceIsReread }
{}
