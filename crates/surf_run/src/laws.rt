//! Laws on what the program answers.
ghost use Rattle.surf_run.specs.Named.{AnswersDependOnNamedFiles};
ghost use Rattle.surf_run.specs.OneAnswer.{AnswersAreOne, OutcomesAreOne};
ghost use Rattle.surf_run.specs.TwoRuns.{CertifiedBasesPass, CertifiedLoopsPass, ClassesAreConfirmed};
ghost use Rattle.surf_run.specs.TwoRuns.{CutsAreSewn, CutsThroughAreSewn};

/// What comes of words depends on what the files hold that they name, and on no other file.
pub fn law_of_named_files()
    ensures { AnswersDependOnNamedFiles }
{}

/// At most one outcome comes of words over files, and so the program answers at most one status,
/// one text and one line.
pub fn law_of_one_answer()
    ensures outcomes { OutcomesAreOne }
    ensures answers { AnswersAreOne }
{}

/// What `certify` writes passes `check`, with the total of the loops or the basis that it is of;
/// what `class` writes is confirmed; and what `sew` writes of what `cut` wrote is read as the mesh
/// that was cut.
pub fn law_of_two_runs()
    ensures loops { CertifiedLoopsPass }
    ensures bases { CertifiedBasesPass }
    ensures classes { ClassesAreConfirmed }
    ensures cuts { CutsAreSewn }
    ensures cuts_through { CutsThroughAreSewn }
{}
