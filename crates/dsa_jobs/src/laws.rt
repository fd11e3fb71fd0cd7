//! What the definitions say of some texts: the contract of an empty function.

ghost use Rattle.std.specs.Prelude.{◌≡◌, [], ◌∷◌, codes};
ghost use Rattle.dsa_jobs.specs.Jobs.{ended_of, jobs_of};

/// An empty line is a job, and the end of a text is none.
pub fn samples_hold()
    ensures lines { jobs_of (codes "a\n\nb") ≡ codes "a" ∷ [] ∷ codes "b" ∷ [] }
    ensures last { jobs_of (codes "\na\n") ≡ [] ∷ codes "a" ∷ [] }
    ensures nothing { jobs_of [] ≡ [] }
    ensures begun { ended_of (codes "a\nb") ≡ codes "a" ∷ [] }
{}
