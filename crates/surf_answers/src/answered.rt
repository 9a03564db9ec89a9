//! Answers.
ghost use Rattle.std.specs.Prelude.{◌≡◌};
ghost use Rattle.surf_answers.specs.Tells.{verdict_status};
ghost use Rattle.surf_answers.specs.declared.answered.Verdict.TheVariants.{Yes};

/// Whether what was asked about is as it should be. Only a check answers `No`.
#[derive(Clone, Copy, Debug, PartialEq, Eq)]
pub enum Verdict {
    Yes,
    No,
}

impl Verdict {
    /// The status with which the program ends.
    pub fn status(self) -> u8
        ensures { result ≡ verdict_status self }
    {
        match self {
            Verdict::Yes => 0,
            Verdict::No => 1,
        }
    }
}

/// An answer: its verdict, and the text that goes to the output.
#[derive(Drop)]
pub struct Answered {
    pub verdict: Verdict,
    pub text: Vec<u8>,
}

impl Answered {
    /// The answer that it is as it should be.
    pub fn yes(text: Vec<u8>) -> Answered
        ensures { result ≡ record { verdict = Yes; text = text } }
    {
        Answered {
            verdict: Verdict::Yes,
            text,
        }
    }
}
