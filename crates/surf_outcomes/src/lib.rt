//! An outcome comes of any words over any files.
//!
//! `surf_run.Leads` says what comes of words over files, and `law_of_one_answer` that it is one
//! outcome at most. Here it is proved, row by row of the command table, that there is one
//! (`law_of_outcomes`): each step goes on or stops, and behind the last step there is an answer.
//! So what the program has to say is a function of words and files. What is read of texts is proved
//! to be as the next steps need it: faces over the vertices, a length for each edge, a closed walk,
//! an increasing list. Whether a mesh is a surface or a certificate valid is decided
//! (`surf_decided`); trees, bases, classes, walks and openings exist by their own laws.
//!
//! The law is the contract of a function that does nothing.
#![tactic(auto)]

ghost use Rattle.surf_outcomes.specs.Outcomes.{OutcomesExist};

/// An outcome comes of any words over any files.
pub fn law_of_outcomes()
    ensures exist { OutcomesExist }
{}
