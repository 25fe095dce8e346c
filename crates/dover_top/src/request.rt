//! What the words of the command line ask for.
ghost use Rattle.std.specs.Prelude.{◌≡◌, ◌≤◌, ◌<◌, ◌∷◌, [], ◌^◌, ℕ, IfSome, IsNone, Option, String, codes, decimal};
ghost use Rattle.std.specs.Prelude.{IsTrue, None, length, map, string_bytes};
ghost use Rattle.std.specs.declared.alloc.Global.{Global};
ghost use Rattle.stated_jobs.specs.declared.duel.links.Share.{Share};
ghost use Rattle.stated_jobs.specs.duel.Kept.{IsShare};
ghost use Rattle.run_reports.specs.declared.views.window.Window.{Window};
ghost use Rattle.dover_top.specs.Words.{IsFormed, IsFront, IsWindow, form_words, front_words};
ghost use Rattle.dover_top.specs.Words.{factor_words, window_words, IsScheduleForm, schedule_words};
ghost use Rattle.dover_top.specs.Words.{IsTaskForm, task_form_words};
ghost use Rattle.task_report.specs.declared.form.TaskForm.{TaskForm as SpelledTaskForm};
ghost use Rattle.trace_words.specs.declared.schedule.form.ScheduleForm.{ScheduleForm as SpelledForm};
ghost use Rattle.dover_model.specs.Common.{Fraction, IsRatio, is_some_factor, most_jobs};
ghost use Rattle.dover_model.specs.declared.factors.Factor.{Factor};
ghost use Rattle.dover_model.specs.declared.events.Version.TheVariants.{Two};
ghost use Rattle.dover_top.specs.Requests.{Asks};
ghost use Rattle.dover_top.specs.declared.request.Request.{Request};

use dover_model::jobs::MOST_WORK;
use dover_model::{Ratio, Version};
use feed_words::serve::AtEnd;
use line_text::numeral;
use question_words::Question;
use run_reports::views::Window;
use stated_jobs::duel::Share;
use task_report::TaskForm;
use trace_words::report::Form;
use trace_words::schedule::ScheduleForm;

/// What the words of the command line ask for, one of the rows of `dover`.
#[derive(Clone, Copy)]
pub enum Request {
    /// A feed is served.
    Serve,
    /// A text is judged.
    Judge,
    /// A report is made on a text.
    Report(Form),
    /// A report is made on a schedule, whichever policy made it.
    Schedule(ScheduleForm),
    /// What became of the jobs of tasks is told, or drawn.
    ReportTasks(TaskForm),
    /// The jobs of a seed are served.
    Trial {
        seed: u32,
        count: u32,
        k: Ratio,
    },
    /// What the run of the baiting jobs of so many rounds comes to is told, by the factor of the ratio if there is one;
    /// nothing is served.
    Bait {
        k: Ratio,
        rounds: u32,
    },
    /// A question on a feed is answered.
    Ask(Question),
    /// Many feeds in one input are served.
    Lanes,
    /// A feed is served, and paused where its input ends.
    Pause,
    /// A feed is served on from its snapshot, and where its input ends it is refused or paused again.
    Resume(AtEnd),
    /// The feed of tasks is written, up to a tick.
    Unroll {
        until: u64,
    },
    /// Of each task, whether it passes a test by which no job of it is lost.
    Sure,
    /// Of tasks, whether their jobs can be met for all time, or a window in which they can have too much work.
    FeasibleTasks,
    /// The least ratio that the jobs of a feed, or tasks, keep is told.
    Ratio,
    /// Tasks are written again, with budgets that pay for changes of hands of at most so many ticks.
    Budget {
        cost: u64,
    },
    /// The feed of the duel for a share is written, or of a front of so many of its jobs.
    Duel {
        k: Ratio,
        share: Share,
        front: Option<u32>,
    },
    /// The stated feed of a seed is written, with jobs that are done early.
    Draw {
        seed: u32,
        count: u32,
        k: Ratio,
    },
}

/// The most jobs, and the most rounds.
const MOST: u64 = 1_000_000;

/// The greatest seed.
const MOST_SEED: u64 = 2_147_483_647;

/// The greatest number that has a numeral.
const MOST_NUMBER: u64 = 999_999_999_999_999_999;

/// The number that the word spells, if it is from `least` to `most`.
fn number(word: &String, least: u64, most: u64) -> Option<u64>
    requires { most < 10 ^ 18 }
    ensures some { IfSome result (λ n. (string_bytes word.now ≡ decimal n) × (least ≤ n) × (n ≤ most)) }
    ensures none { IsNone result → (n : ℕ) → least ≤ n → n ≤ most → string_bytes word.now ≡ decimal n → ⊥ }
{
    let number = numeral(word.as_bytes())?;
    if number < least || number > most {
        return None;
    }
    Some(number)
}

/// The number that the only word spells, if it is from `least` to `most`.
fn lone(words: &[String], least: u64, most: u64) -> Option<u64>
    requires { most < 10 ^ 18 }
    ensures some { IfSome result (λ n. (map string_bytes words.now ≡ decimal n ∷ []) × (least ≤ n) × (n ≤ most)) }
    ensures none { IsNone result → (n : ℕ) → least ≤ n → n ≤ most → map string_bytes words.now ≡ decimal n ∷ [] → ⊥ }
{
    let [word] = words else {
        return None;
    };
    number(word, least, most)
}

/// The ratio whose numbers these words spell, if it is one. It has no factor.
fn ratio(p: &String, q: &String) -> Option<Ratio>
    ensures some { IfSome result (λ k. (string_bytes p.now ≡ decimal k.p) × (string_bytes q.now ≡ decimal k.q)
        × IsRatio k × (k.factor ≡ None)) }
    ensures none { IsNone result → (k : Fraction) → IsRatio k → string_bytes p.now ≡ decimal k.p →
        string_bytes q.now ≡ decimal k.q → ⊥ }
{
    let p = number(p, 0, MOST)?;
    let q = number(q, 0, MOST)?;
    Ratio::new(p as u32, q as u32)
}

/// The ratio with the factor whose numbers these words spell, if it is one, or as it is where there are no words.
fn factored(k: Ratio, words: &[String]) -> Option<Ratio>
    requires ratio { IsRatio k }
    requires plain { k.factor ≡ None }
    ensures some { IfSome result (λ r. (r.p ≡ k.p) × (r.q ≡ k.q) × IsRatio r
        × (map string_bytes words.now ≡ factor_words r.factor)) }
    ensures none { IsNone result → (f : Option Factor) → IsTrue (is_some_factor f) →
        map string_bytes words.now ≡ factor_words f → ⊥ }
{
    match words {
        [] => Some(k),
        [b, c] => {
            let b = number(b, 0, MOST)?;
            let c = number(c, 0, MOST)?;
            k.with_factor(b as u32, c as u32)
        }
        _ => None,
    }
}

/// The share whose numbers these words spell, if it is one.
fn share(part: &String, whole: &String) -> Option<Share>
    ensures some { IfSome result (λ s. (string_bytes part.now ≡ decimal s.part)
        × (string_bytes whole.now ≡ decimal s.whole) × IsShare s) }
    ensures none { IsNone result → (s : Share) → IsShare s → string_bytes part.now ≡ decimal s.part →
        string_bytes whole.now ≡ decimal s.whole → ⊥ }
{
    let part = number(part, 1, MOST)?;
    let whole = number(whole, 1, MOST)?;
    Some(Share { part, whole })
}

/// The window whose ticks these words spell, the first below the second, or none where there are no words.
fn window(words: &[String]) -> Option<Option<Window>>
    ensures some { IfSome result (λ w. IsWindow w × (map string_bytes words.now ≡ window_words w)) }
    ensures none { IsNone result → (w : Option Window) → IsWindow w →
        map string_bytes words.now ≡ window_words w → ⊥ }
{
    match words {
        [] => Some(None),
        [from, until] => {
            let from = number(from, 0, MOST_NUMBER)?;
            let until = number(until, from + 1, MOST_NUMBER)?;
            Some(Some(Window { from, until }))
        }
        _ => None,
    }
}

/// The front whose number of jobs the word spells, or none where there is no word.
fn front(words: &[String]) -> Option<Option<u32>>
    ensures some { IfSome result (λ f. IsFront f × (map string_bytes words.now ≡ front_words f)) }
    ensures none { IsNone result → (f : Option ℕ) → IsFront f → map string_bytes words.now ≡ front_words f → ⊥ }
{
    if words.is_empty() {
        return Some(None);
    }
    let count = lone(words, 1, MOST)? as u32;
    Some(Some(count))
}

/// The form of this name, on a window if there is one.
fn form_on(name: &String, window: Option<Window>) -> Option<Form>
    ensures some { IfSome result (λ f. (string_bytes name.now ∷ window_words window ≡ form_words f)
        × (IsWindow window → IsFormed f)) }
    ensures none { IsNone result → (f : Form) → string_bytes name.now ∷ window_words window ≡ form_words f → ⊥ }
{
    match (name.as_str(), window) {
        ("text", None) => Some(Form::Text),
        ("csv", None) => Some(Form::Table),
        ("chrome", None) => Some(Form::Chrome),
        ("timeline", _) => Some(Form::Timeline(window)),
        ("svg", _) => Some(Form::Svg(window)),
        _ => None,
    }
}

/// The form of a report on a schedule of this name, on a window if there is one.
fn schedule_form_on(name: &String, window: Option<Window>) -> Option<ScheduleForm>
    ensures some { IfSome result (λ f. (string_bytes name.now ∷ window_words window ≡ schedule_words f)
        × (IsWindow window → IsScheduleForm f)) }
    ensures none { IsNone result → (f : SpelledForm) →
        string_bytes name.now ∷ window_words window ≡ schedule_words f → ⊥ }
{
    match (name.as_str(), window) {
        ("csv", None) => Some(ScheduleForm::Table),
        ("timeline", _) => Some(ScheduleForm::Timeline(window)),
        ("svg", _) => Some(ScheduleForm::Svg(window)),
        _ => None,
    }
}

/// The words behind `any`: a form, and what it is on.
fn schedule(words: &[String]) -> Option<ScheduleForm>
    ensures some { IfSome result (λ f. (map string_bytes words.now ≡ schedule_words f) × IsScheduleForm f) }
    ensures none { IsNone result → (f : SpelledForm) → IsScheduleForm f →
        map string_bytes words.now ≡ schedule_words f → ⊥ }
{
    let (name, words) = words.split_first()?;
    let form = schedule_form_on(name, window(words)?)?;
    Some(form)
}

/// The form of a report on tasks of this name, on a window if there is one.
fn task_form_on(name: &String, window: Option<Window>) -> Option<TaskForm>
    ensures some { IfSome result (λ f. (string_bytes name.now ∷ window_words window ≡ task_form_words f)
        × (IsWindow window → IsTaskForm f)) }
    ensures none { IsNone result → (f : SpelledTaskForm) →
        string_bytes name.now ∷ window_words window ≡ task_form_words f → ⊥ }
{
    match name.as_str() {
        "timeline" => Some(TaskForm::Timeline(window)),
        "svg" => Some(TaskForm::Svg(window)),
        _ => None,
    }
}

/// The words behind `tasks`: none, or a form of picture, and what it is on.
fn task_form(words: &[String]) -> Option<TaskForm>
    ensures some { IfSome result (λ f. (map string_bytes words.now ≡ task_form_words f) × IsTaskForm f) }
    ensures none { IsNone result → (f : SpelledTaskForm) → IsTaskForm f →
        map string_bytes words.now ≡ task_form_words f → ⊥ }
{
    if words.is_empty() {
        return Some(TaskForm::Lines);
    }
    let (name, words) = words.split_first()?;
    let form = task_form_on(name, window(words)?)?;
    Some(form)
}

/// One word.
fn one_word(word: &String) -> Option<Request>
    ensures some { IfSome result (λ r. Asks (word.now ∷ []) r) }
    ensures none { IsNone result → (r : Request) → Asks (word.now ∷ []) r → ⊥ }
{
    match word.as_str() {
        "serve" => Some(Request::Serve),
        "judge" => Some(Request::Judge),
        "feasible" => Some(Request::Ask(Question::Feasible)),
        "best" => Some(Request::Ask(Question::Best)),
        "compare" => Some(Request::Ask(Question::Compare)),
        "loss" => Some(Request::Ask(Question::Loss)),
        "lanes" => Some(Request::Lanes),
        "pause" => Some(Request::Pause),
        "resume" => Some(Request::Resume(AtEnd::Refuse)),
        "sure" => Some(Request::Sure),
        "ratio" => Some(Request::Ratio),
        _ => None,
    }
}

/// The words behind `report`: `tasks`, or a form and what it is on, or behind `any` that of a schedule.
fn report(words: &[String]) -> Option<Request>
    ensures some { (word : String Global) → string_bytes word ≡ codes "report" →
        IfSome result (λ r. Asks (word ∷ words.now) r) }
    ensures none { (word : String Global) → string_bytes word ≡ codes "report" →
        IsNone result → (r : Request) → Asks (word ∷ words.now) r → ⊥ }
{
    let (name, words) = words.split_first()?;
    match name.as_str() {
        "why" => {
            let job = lone(words, 0, MOST)? as u32;
            Some(Request::Report(Form::Why(job)))
        }
        "any" => {
            let form = schedule(words)?;
            Some(Request::Schedule(form))
        }
        "tasks" => {
            let form = task_form(words)?;
            Some(Request::ReportTasks(form))
        }
        _ => {
            let form = form_on(name, window(words)?)?;
            Some(Request::Report(form))
        }
    }
}

/// The words behind `bait`: a ratio, so many rounds, and a factor if there is one.
fn bait(words: &[String]) -> Option<Request>
    ensures some { (word : String Global) → string_bytes word ≡ codes "bait" →
        IfSome result (λ r. Asks (word ∷ words.now) r) }
    ensures none { (word : String Global) → string_bytes word ≡ codes "bait" →
        IsNone result → (r : Request) → Asks (word ∷ words.now) r → ⊥ }
{
    let [p, q, rounds, factor @ ..] = words else {
        return None;
    };
    let k = ratio(p, q)?;
    let rounds = number(rounds, 1, MOST)? as u32;
    let k = factored(k, factor)?;
    Some(Request::Bait { k, rounds })
}

/// The words behind `duel`: a ratio, a share, and a front if there is one.
fn duel(words: &[String]) -> Option<Request>
    ensures some { (word : String Global) → string_bytes word ≡ codes "duel" →
        IfSome result (λ r. Asks (word ∷ words.now) r) }
    ensures none { (word : String Global) → string_bytes word ≡ codes "duel" →
        IsNone result → (r : Request) → Asks (word ∷ words.now) r → ⊥ }
{
    let [p, q, part, whole, last @ ..] = words else {
        return None;
    };
    let k = ratio(p, q)?;
    let share = share(part, whole)?;
    let front = front(last)?;
    Some(Request::Duel { k, share, front })
}

/// The words behind `trial` and behind `draw`: a seed, how many jobs, and a ratio.
fn stated(words: &[String]) -> Option<(u32, u32, Ratio)>
    ensures some { IfSome result (λ s. (map string_bytes words.now
        ≡ decimal s.0 ∷ decimal s.1 ∷ decimal s.2.p ∷ decimal s.2.q ∷ [])
        × (s.0 < 2 ^ 31) × (s.1 ≤ most_jobs Two) × IsRatio s.2 × (s.2.factor ≡ None)) }
    ensures none { IsNone result → (seed count : ℕ) (k : Fraction) → seed < 2 ^ 31 → count ≤ most_jobs Two →
        IsRatio k → map string_bytes words.now
        ≡ decimal seed ∷ decimal count ∷ decimal k.p ∷ decimal k.q ∷ [] → ⊥ }
{
    let [seed, count, p, q] = words else {
        return None;
    };
    let seed = number(seed, 0, MOST_SEED)? as u32;
    let count = number(count, 0, MOST)? as u32;
    let k = ratio(p, q)?;
    Some((seed, count, k))
}

/// The word behind `resume` that asks for another pause.
fn paused(words: &[String]) -> Option<Request>
    requires { 0 < length words.now }
    ensures some { (word : String Global) → string_bytes word ≡ codes "resume" →
        IfSome result (λ r. Asks (word ∷ words.now) r) }
    ensures none { (word : String Global) → string_bytes word ≡ codes "resume" →
        IsNone result → (r : Request) → Asks (word ∷ words.now) r → ⊥ }
{
    let [last] = words else {
        return None;
    };
    match last.as_str() {
        "pause" => Some(Request::Resume(AtEnd::Pause)),
        _ => None,
    }
}

/// The word behind `feasible` that asks about tasks.
fn feasible(words: &[String]) -> Option<Request>
    requires { 0 < length words.now }
    ensures some { (word : String Global) → string_bytes word ≡ codes "feasible" →
        IfSome result (λ r. Asks (word ∷ words.now) r) }
    ensures none { (word : String Global) → string_bytes word ≡ codes "feasible" →
        IsNone result → (r : Request) → Asks (word ∷ words.now) r → ⊥ }
{
    let [last] = words else {
        return None;
    };
    match last.as_str() {
        "tasks" => Some(Request::FeasibleTasks),
        _ => None,
    }
}

/// Words of which there is more than one.
fn more_words(word: &String, words: &[String]) -> Option<Request>
    requires { 0 < length words.now }
    ensures some { IfSome result (λ r. Asks (word.now ∷ words.now) r) }
    ensures none { IsNone result → (r : Request) → Asks (word.now ∷ words.now) r → ⊥ }
{
    match word.as_str() {
        "report" => report(words),
        "trial" => {
            let (seed, count, k) = stated(words)?;
            Some(Request::Trial { seed, count, k })
        }
        "draw" => {
            let (seed, count, k) = stated(words)?;
            Some(Request::Draw { seed, count, k })
        }
        "bait" => bait(words),
        "duel" => duel(words),
        "unroll" => {
            let until = lone(words, 0, Version::Two.last_tick())?;
            Some(Request::Unroll { until })
        }
        "budget" => {
            let cost = lone(words, 0, MOST_WORK)?;
            Some(Request::Budget { cost })
        }
        "resume" => paused(words),
        "feasible" => feasible(words),
        _ => None,
    }
}

/// What the words ask for. None where they are no row.
pub(crate) fn asked(words: &[String]) -> Option<Request>
    ensures some { IfSome result (λ r. Asks words.now r) }
    ensures none { IsNone result → (r : Request) → Asks words.now r → ⊥ }
{
    let (word, words) = words.split_first()?;
    if words.is_empty() {
        return one_word(word);
    }
    more_words(word, words)
}
