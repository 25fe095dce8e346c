//! What a policy's run comes to in numbers.
ghost use Rattle.std.specs.Prelude.{◌≡◌, ◌+◌, ◌<◌, ◌^◌};
ghost use Rattle.dover_model.specs.Common.{idle};
ghost use Rattle.policy_lab.specs.Stops.{stop_by};

/// The number that no job has.
const IDLE: u32 = 4_000_000_000;

/// What a policy's run has come to before a tick.
#[derive(Clone, Copy)]
pub struct Tally {
    /// The sum of the values of the jobs that it serves.
    pub value: u64,
    /// How many jobs these are.
    pub completed: u64,
    /// How often it stopped a job that it hadn't served yet.
    pub stops: u64,
    /// The number of the job that ran in the tick before and has work left, or 4,000,000,000.
    pub last: u32,
}

/// 1 if the job `last` is stopped where the job `number` runs.
fn stop_by(last: u32, number: u32) -> u64
    ensures { result ≡ stop_by last number }
{
    if last == IDLE || last == number { 0 } else { 1 }
}

impl Tally {
    /// Before the first tick.
    pub fn none() -> Tally
        ensures { result ≡ record { value = 0; completed = 0; stops = 0; last = idle } }
    {
        Tally {
            value: 0,
            completed: 0,
            stops: 0,
            last: IDLE,
        }
    }

    /// The job of this number runs, and has work left.
    pub fn run(&mut self, number: u32)
        requires { self.old.stops + 1 < 2 ^ 64 }
        ensures { self.new ≡ record {
          value = self.old.value;
          completed = self.old.completed;
          stops = self.old.stops + stop_by self.old.last number;
          last = number;
        } }
    {
        self.stops += stop_by(self.last, number);
        self.last = number;
    }

    /// The job of this number, worth so much, runs to its end.
    pub fn complete(&mut self, number: u32, value: u64)
        requires stops { self.old.stops + 1 < 2 ^ 64 }
        requires completed { self.old.completed + 1 < 2 ^ 64 }
        requires value { self.old.value + value < 2 ^ 64 }
        ensures { self.new ≡ record {
          value = self.old.value + value;
          completed = self.old.completed + 1;
          stops = self.old.stops + stop_by self.old.last number;
          last = idle;
        } }
    {
        self.stops += stop_by(self.last, number);
        self.last = IDLE;
        self.completed += 1;
        self.value += value;
    }
}
