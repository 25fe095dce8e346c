/// Some ticks, and what is known of the jobs that are released and due in them.
#[derive(Clone, Copy)]
pub struct Stretch {
    /// The first of the ticks.
    pub from: u64,
    /// The tick behind the last one.
    pub until: u64,
    /// What they are worth together.
    pub total: u64,
    /// No schedule of them is worth more.
    pub cap: u64,
}

/// Stretches, in the order of time and apart, and what all jobs are worth.
#[derive(Drop)]
pub struct Costed {
    /// What all jobs are worth together.
    pub total: u64,
    /// No schedule is worth more.
    pub cap: u64,
    /// The stretches.
    pub stretches: Vec<Stretch>,
}
