//! Which text words read.

/// A kind of text.
#[derive(Clone, Copy, Debug, PartialEq, Eq)]
pub(crate) enum Text {
    Feed,
    Tasks,
    FeedOrTasks,
    Trace,
    TasksAndTrace,
    Schedule,
    Snapshot,
    Lanes,
    /// None is read.
    Nothing,
}

fn of_report(kind: &str) -> Text {
    match kind {
        "any" => Text::Schedule,
        "tasks" => Text::TasksAndTrace,
        _ => Text::Trace,
    }
}

/// The text that words read which begin with these two.
pub(crate) fn text_of(word: &str, next: &str) -> Text {
    match word {
        "serve" | "pause" | "feasible" | "best" | "compare" | "loss" => Text::Feed,
        "unroll" | "sure" | "budget" => Text::Tasks,
        "ratio" => Text::FeedOrTasks,
        "judge" => Text::Trace,
        "report" => of_report(next),
        "resume" => Text::Snapshot,
        "lanes" => Text::Lanes,
        _ => Text::Nothing,
    }
}

impl Text {
    /// What it is called, behind `a` or `an`.
    pub(crate) fn name(self) -> &'static str {
        match self {
            Text::Feed => "a feed",
            Text::Tasks => "a task text",
            Text::FeedOrTasks => "a feed or a task text",
            Text::Trace => "a trace",
            Text::TasksAndTrace => "a task text, and behind it a trace,",
            Text::Schedule => "a schedule",
            Text::Snapshot => "a snapshot",
            Text::Lanes => "the feeds of lanes",
            Text::Nothing => "nothing",
        }
    }

    /// The first words of its lines.
    pub(crate) fn first_words(self) -> &'static str {
        match self {
            Text::Tasks | Text::TasksAndTrace => "k, task and end",
            Text::FeedOrTasks => "k, job, tick, done, task and end",
            _ => "k, job, tick, done and end",
        }
    }

    /// The text of which lines are refused, where this one is read.
    pub(crate) fn refusing(self) -> Text {
        match self {
            Text::TasksAndTrace => Text::Tasks,
            kind => kind,
        }
    }

    pub(crate) fn has_jobs(self) -> bool {
        matches!(self, Text::Feed | Text::FeedOrTasks | Text::Snapshot)
    }

    pub(crate) fn has_tasks(self) -> bool {
        matches!(self, Text::Tasks | Text::FeedOrTasks | Text::TasksAndTrace)
    }
}

/// The text that words wait for which ask for one, if they do.
pub fn waits_for(words: &[String]) -> Option<&'static str> {
    let word = words.first().map_or("", |it| it.as_str());
    let next = words.get(1).map_or("", |it| it.as_str());
    let alone = !matches!(word, "unroll" | "budget" | "report");
    let kind = text_of(word, next);
    if kind == Text::Nothing || alone != next.is_empty() {
        return None;
    }
    Some(kind.name())
}
