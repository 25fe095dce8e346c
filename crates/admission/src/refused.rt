//! Why a job isn't admitted.
use dover_model::Refusal;

/// Why a job isn't admitted. The first of these causes that holds is the one that is answered.
#[derive(Clone, Copy, Debug)]
pub enum Refused {
    /// A limit of one job is broken.
    BadJob,
    /// As many jobs as there may be were admitted before.
    Count,
    /// The sum of the values would pass its limit.
    Total,
    /// An earlier job, of this number, and the job break the ratio, in one direction or the other.
    Ratio { other: u32 },
}

impl Refused {
    ghost use Rattle.std.specs.Prelude.{◌≡◌};
    ghost use Rattle.admission.specs.Answers.{refusal_of_refused};

    /// The cause without the other job.
    pub fn refusal(self) -> Refusal
        ensures { result ≡ refusal_of_refused self }
    {
        match self {
            Refused::BadJob => Refusal::BadJob,
            Refused::Count => Refusal::Count,
            Refused::Total => Refusal::Total,
            Refused::Ratio { .. } => Refusal::Ratio,
        }
    }
}
