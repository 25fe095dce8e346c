//! What a good line of a feed says.
use dover_model::{Job, Ratio, Refusal, Version};

/// What a line says that isn't at fault.
#[derive(Clone, Copy)]
pub enum Fed {
    /// The ratio and the version are declared.
    Ratio(Ratio, Version),
    /// A job is offered, which may be admitted under this number: so it is, where the caller accepts it, and else too
    /// many jobs are ready at its release.
    Job(u32, Job),
    /// The mark is this tick: no later line names a release or a tick below it.
    Tick(u64),
    /// The feed is ended.
    Over,
    /// A job of these numbers isn't admitted, which from version Two on is no fault.
    Refused {
        release: u64,
        work: u64,
        deadline: u64,
        value: u64,
        cause: Refusal,
    },
    /// The tick that ends at this one is said to be the last that the job of this number needed. Whether that is right,
    /// its run says. The mark is this tick, if it was below.
    Done {
        at: u64,
        number: u64,
    },
}
