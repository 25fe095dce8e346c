//! The lines of a feed, on their way out.
ghost use Rattle.std.specs.Prelude.{◌++◌, ◌∷◌, []};
ghost use Rattle.dover_model.specs.Common.{rules_with, feed_text};
ghost use Rattle.dover_port.specs.Causes.{HasCause, StopsAtFailure};
ghost use Rattle.dover_port.specs.Moves.{PutsThrough};
ghost use Rattle.event_feed.specs.Feeds.{job_text, rules_text};
ghost use Rattle.line_text.specs.feeds.Form.{form_of};

use dover_model::{Job, Ratio, Version};
use dover_port::{Failed, Output, Port};
use event_feed::rules_line;
use line_text::BackLine;
use line_text::feeds::{FeedLine, write_feed_line};

/// Puts a line of a feed with its line feed, or keeps it back in `out`. An `Err`: a write failed, and a front of what
/// was kept back and of the line was put, but not all of it.
#[inline(always)]
pub fn put_feed_line<P: Port>(port: &mut P, out: &mut Output, line: &FeedLine) -> Result<(), Failed>
    ensures text { PutsThrough (P.moves port.old) (P.moves port.new) result out.old out.new
        (feed_text (form_of line.now) ++ 10 ∷ []) }
    ensures cause { HasCause (P.write_faults port.old) (P.write_faults port.new) (P.read_faults port.old)
        (P.read_faults port.new) result }
    ensures stops { StopsAtFailure (P.calls port.old) (P.calls port.new) result }
{
    let mut text = BackLine::new();
    write_feed_line(line, &mut text);
    out.put(port, text.bytes())
}

/// Puts the line that declares the ratio and the version, and the factor if there is one, as `put_feed_line` does.
pub fn put_rules<P: Port>(
    port: &mut P,
    out: &mut Output,
    ratio: Ratio,
    version: Version,
) -> Result<(), Failed>
    ensures text { PutsThrough (P.moves port.old) (P.moves port.new) result out.old out.new
        (rules_text (rules_with ratio version) ++ 10 ∷ []) }
    ensures cause { HasCause (P.write_faults port.old) (P.write_faults port.new) (P.read_faults port.old)
        (P.read_faults port.new) result }
    ensures stops { StopsAtFailure (P.calls port.old) (P.calls port.new) result }
{
    put_feed_line(port, out, &rules_line(ratio, version))
}

/// Puts the line of a job, as `put_feed_line` does.
#[inline(always)]
pub fn put_job<P: Port>(port: &mut P, out: &mut Output, job: &Job) -> Result<(), Failed>
    ensures text { PutsThrough (P.moves port.old) (P.moves port.new) result out.old out.new
        (job_text job.now ++ 10 ∷ []) }
    ensures cause { HasCause (P.write_faults port.old) (P.write_faults port.new) (P.read_faults port.old)
        (P.read_faults port.new) result }
    ensures stops { StopsAtFailure (P.calls port.old) (P.calls port.new) result }
{
    let line = FeedLine::Job {
        release: job.release(),
        work: job.work(),
        deadline: job.deadline(),
        value: job.value(),
    };
    put_feed_line(port, out, &line)
}
