//! The causes of texts and pictures. Those of lists, plans and jobs are in the crates that find them.

ghost use Rattle.std.specs.Prelude.{◌≡◌};
ghost use Rattle.dsa_sentences.specs.Endings.{ending_of};

/// Why a text, or a picture, is refused.
#[derive(Clone, Copy)]
pub enum TextCause {
    /// A line leaves the grammar.
    Line,
    /// A picture would be too large.
    Picture,
    /// Options give settings beside a job.
    Options,
}

impl TextCause {
    /// What ends the message: the number and the name of the cause, in brackets.
    pub fn ending(self) -> &'static str
        ensures { result.now ≡ ending_of self }
    {
        match self {
            TextCause::Line => " [130 Line]\n",
            TextCause::Picture => " [131 Picture]\n",
            TextCause::Options => " [132 Options]\n",
        }
    }
}
