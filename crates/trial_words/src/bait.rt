//! The word `bait`.
ghost use Rattle.std.specs.Prelude.{◌≡◌, ◌≤◌};
ghost use Rattle.dialogue.specs.Talk.{CanEnd};
ghost use Rattle.dover_port.specs.Causes.{Causes, StopsWith};
ghost use Rattle.dover_port.specs.Moves.{Since};
ghost use Rattle.stated_jobs.specs.bait.BaitingRuns.{CompletesLastAlone};
ghost use Rattle.trial_words.specs.Baited.{Baits, bait_instance, bait_text};

use dover_model::Ratio;
use dover_port::{Port, Status, put_all};
use line_text::BackLine;
use root_compare::long_bound;
use stated_jobs::bait::Bait;

/// What is written of a feed with this ratio: its jobs, the value that its run completes, the value of the given
/// schedule, and the bound.
fn text_of(feed: &Bait, k: Ratio) -> BackLine
    requires { feed.now.ratio ≡ k }
    ensures text { result ≡ bait_text feed.now.ratio feed.now.rounds }
    ensures alone { CompletesLastAlone feed.now.ratio feed.now.rounds
        (bait_instance feed.now.ratio feed.now.rounds) }
{
    let jobs = u64::from(feed.jobs());
    let value = feed.value();
    let mut text = BackLine::new();
    text.put_long(long_bound(value, k));
    text.put_word(b"\nbound ");
    text.put_with_wide(b"\nschedule", &[feed.schedule_value()]);
    text.put_with_wide(b"\nvalue", &[value]);
    text.put_with_wide(b"jobs", &[jobs]);
    text
}

/// Writes of the baiting feed of so many rounds, at least one, how many jobs it has, the value that its run completes,
/// which is that of the chain's last job alone, the value of the schedule that runs the unit jobs and the bait, and the
/// bound on the value of every schedule. Nothing is read, nothing has to be served for it, and no memory is taken. A
/// feed of more than 1,000,000 jobs, or with a value above 10^9, is refused. Where the ratio has a factor, a link takes
/// the processor by the factor, and the bound is that of the factor.
pub fn bait_word<P: Port>(port: &mut P, k: Ratio, rounds: u32) -> Status
    requires rounds { 1 ≤ rounds }
    ensures baits { Since (P.moves port.old) (P.moves port.new) (Baits k rounds result) }
    ensures ends { CanEnd (Baits k rounds) result }
    ensures alone { result ≡ Status.Done → CompletesLastAlone k rounds (bait_instance k rounds) }
    ensures causes { Causes result (P.read_faults port.old) (P.read_faults port.new) (P.write_faults port.old)
        (P.write_faults port.new) }
    ensures stops { StopsWith result (P.calls port.old) (P.calls port.new) }
{
    let Some(feed) = Bait::new(k, rounds) else {
        return match put_all(port, b"refused size\n") {
            Ok(()) => Status::Refused,
            Err(_) => Status::WriteFault,
        };
    };
    match put_all(port, text_of(&feed, k).bytes()) {
        Ok(()) => Status::Done,
        Err(_) => Status::WriteFault,
    }
}
