//! The lines of a feed, taken in one by one.
ghost use Rattle.std.specs.Prelude.{◌≡◌, ℕ, List, [], ◌∷◌, ◌++◌, ◌↔◌, true, false, Option, IsOk, IfOk, OnOk, IsSome};
ghost use Rattle.std.specs.Prelude.{IfSome, Some, None, ◌≤◌, ◌+◌, replicate, option_map};
ghost use Rattle.dover_model.specs.declared.events.Version.TheVariants.{Three};
ghost use Rattle.dover_model.specs.Common.{most_lines, Session, Account, Open, account_of_lines, read_line, rules_with};
ghost use Rattle.dover_model.specs.Common.{first_line_cause};
ghost use Rattle.dover_model.specs.FeedLine as form;
ghost use Rattle.line_text.specs.feeds.Form.{form_of};
ghost use Rattle.event_feed.specs.Kept.{KeepsSession, cause_of_fault, most_lines_of};
ghost use Rattle.event_feed.specs.Answers.{NamesOther};
ghost use Rattle.event_feed.specs.Reading.{first_rules, open_account, TakesIn, IsTaken};

use crate::declaring::{declared, declared_with_factor};
use crate::faults::{Cause, FeedFault};
use crate::fed::Fed;
use crate::kept_session::KeptSession;
use dover_model::{Job, Ratio, Version};
use line_text::Spelled;
use line_text::feeds::{FeedLine, read_feed_line};
use std::marker::Model;

/// Whether a feed goes on.
#[derive(Clone, Copy)]
enum Standing {
    Open,
    Over,
    Faulty(FeedFault),
}

/// The ratio and the version that the first line declares.
fn declared_in(line: FeedLine) -> Option<(Ratio, Version)>
    ensures { option_map (λ declared. rules_with declared.0 declared.1) result ≡ first_rules (form_of line) }
{
    match line {
        FeedLine::Declared { p, q, version } => declared(p, q, version),
        FeedLine::Factored {
            p,
            q,
            version,
            b,
            c,
        } => declared_with_factor(p, q, version, b, c),
        _ => None,
    }
}

/// What is wrong with a first line that declares nothing. In the versions that are taken no done line has a form.
fn undeclared(line: FeedLine) -> Cause
    ensures cause { first_rules (form_of line) ≡ None
        → first_line_cause (form_of line) ≡ Some (cause_of_fault result) }
    ensures other { (read : Option form.FeedLine) (a : Account) → NamesOther read a result }
{
    match line {
        FeedLine::Done { .. } => Cause::Line,
        _ => Cause::Declared,
    }
}

/// The first line, which has to declare the ratio.
#[inline(never)]
fn first_line(session: &mut Option<KeptSession>, line: FeedLine) -> Result<Fed, Cause>
    requires { session.old ≡ None }
    ensures declared { OnOk result (IsSome session.new) }
    ensures taken { (lines : ℕ) → TakesIn (open_account lines None 0) (form_of line) session.new result }
{
    match declared_in(line) {
        Some((ratio, version)) => {
            *session = Some(KeptSession::new(ratio, version));
            Ok(Fed::Ratio(ratio, version))
        }
        None => Err(undeclared(line)),
    }
}

/// A line that has one of the forms.
#[inline(always)]
fn formed_line(session: &mut Option<KeptSession>, line: FeedLine) -> Result<Fed, Cause>
    requires { form.HasNumerals (form_of line) }
    ensures declared { OnOk result (IsSome session.new) }
    ensures taken { (lines : ℕ) (before : Option Session) (mark : ℕ) → KeepsSession session.old before mark →
        TakesIn (open_account lines before mark) (form_of line) session.new result }
{
    match session {
        Some(kept) => kept.line(line),
        None => first_line(session, line),
    }
}

/// Keeps the numbers of a job line with their text.
#[inline(always)]
fn keep_numbers(spelled: &mut Spelled, line: &[u8], read: &FeedLine)
    requires text { form.feed_text (form_of read.now) ≡ line.now }
    requires short { form.HasNumerals (form_of read.now) }
{
    if let FeedLine::Job {
        release,
        work,
        deadline,
        value,
    } = read
    {
        spelled.keep(&[*release, *work, *deadline, *value], &line[3..]);
    }
}

/// How many lines there may be, once a version is declared: the first line has to declare it.
#[inline(always)]
fn most_lines(session: &Option<KeptSession>) -> u64
    ensures is { result ≡ most_lines_of session.now }
    ensures known { result ≤ most_lines Three }
{
    match session {
        Some(kept) => kept.version().most_lines(),
        None => 1,
    }
}

/// A line of one of the forms or of none, which is counted already.
#[inline(always)]
fn read(session: &mut Option<KeptSession>, lines: u64, line: Option<FeedLine>) -> Result<Fed, Cause>
    requires { IfSome line (λ l. form.HasNumerals (form_of l)) }
    ensures few { OnOk result (lines ≤ most_lines Three) }
    ensures declared { OnOk result (IsSome session.new) }
    ensures taken { (a : Account) (text : List ℕ) → form.feed_line text ≡ option_map form_of line →
        a.standing ≡ Open → a.lines ≡ lines → KeepsSession session.old a.session a.mark →
        IsTaken session.new (form.feed_line text) a (read_line a text) result }
{
    if lines > most_lines(session) {
        return Err(Cause::Lines);
    }
    match line {
        Some(line) => formed_line(session, line),
        None => Err(Cause::Line),
    }
}

/// Takes in the lines of a feed, one by one. It keeps the number of lines, the session as far as the next line needs
/// it, and whether the feed goes on.
#[derive(Drop)]
pub struct Intake {
    lines: u64,
    session: Option<KeptSession>,
    standing: Standing,
    spelled: Spelled,
}

impl Model for Intake {
    ghost use Rattle.event_feed.specs.Kept.{Kept, IsCounted};

    ghost Value = { Kept };

    ghost view = { λ i. record { lines = i.lines; session = i.session; standing = i.standing } };

    ghost invariant = { λ i. IsCounted i.standing i.lines };
}

impl Intake {
    ghost use Rattle.event_feed.specs.Kept.{StandsFor, StandsBehind, KeepsStanding, IsGoing, HasLines, has_ended};
    ghost use Rattle.event_feed.specs.Kept.{fault_of, HasRoom, Accepts};
    ghost use Rattle.event_feed.specs.Answers.{Answers, EndAnswers, fault_in};

    /// No line came yet.
    pub fn new() -> Intake
        ensures stands { StandsFor result [] }
        ensures goes_on { has_ended result ≡ false }
        ensures no_fault { fault_of result ≡ None }
        ensures none_counted { result.lines ≡ 0 }
    {
        Intake {
            lines: 0,
            session: None,
            standing: Standing::Open,
            spelled: Spelled::new(),
        }
    }

    /// Takes the next line, which has this form, or none.
    #[inline(always)]
    fn take(&mut self, line: Option<FeedLine>) -> Result<Fed, FeedFault>
        requires numerals { IfSome line (λ l. form.HasNumerals (form_of l)) }
        requires unended { has_ended self.old ≡ false }
        ensures stands { (ls : List (List ℕ)) (text : List ℕ) → form.feed_line text ≡ option_map form_of line →
            StandsFor self.old ls → StandsBehind result self.new ls text }
        ensures answer { (ls : List (List ℕ)) (text : List ℕ) → form.feed_line text ≡ option_map form_of line →
            StandsFor self.old ls → Answers text (account_of_lines ls) (account_of_lines (ls ++ text ∷ [])) result }
        ensures going { IfOk result (λ fed. (fed ≡ Fed.Over → ⊥) → IsGoing self.new) }
        ensures ended { (has_ended self.new ≡ true) ↔ (result ≡ Ok Fed.Over) }
        ensures fault { fault_of self.new ≡ fault_in result }
        ensures counted { self.new.lines ≤ self.old.lines + 1 }
        ensures again { (fault : FeedFault) → fault_of self.old ≡ Some fault → (result ≡ Err fault)
            × (self.new ≡ self.old) }
    {
        if let Standing::Faulty(fault) = self.standing {
            return Err(fault);
        }
        self.lines += 1;
        match read(&mut self.session, self.lines, line) {
            Ok(Fed::Over) => {
                self.standing = Standing::Over;
                Ok(Fed::Over)
            }
            Ok(fed) => Ok(fed),
            Err(cause) => {
                let fault = FeedFault {
                    line: self.lines,
                    cause,
                };
                self.standing = Standing::Faulty(fault);
                Err(fault)
            }
        }
    }

    /// Takes the next line, without its line feed. No line is kept. After `Fed::Over` no line may come.
    ///
    /// # Errors
    ///
    /// The first faulty line, numbered from 1, with its cause. After a fault every line is answered by that same
    /// fault. From version Two on a job that isn't admitted is no fault, and from version Three on neither is one
    /// that comes late: it is answered as `Fed::Refused`. Nor is a done line whose finish isn't right, nor a job for
    /// which there is no room among those that are ready: it is offered, and the caller, who has the run, doesn't
    /// accept it.
    #[inline(always)]
    pub fn line(&mut self, line: &[u8]) -> Result<Fed, FeedFault>
        requires { has_ended self.old ≡ false }
        ensures stands { (ls : List (List ℕ)) → StandsFor self.old ls
            → StandsBehind result self.new ls line.now }
        ensures answer { (ls : List (List ℕ)) → StandsFor self.old ls →
            Answers line.now (account_of_lines ls) (account_of_lines (ls ++ line.now ∷ [])) result }
        ensures going { IfOk result (λ fed. (fed ≡ Fed.Over → ⊥) → IsGoing self.new) }
        ensures ended { (has_ended self.new ≡ true) ↔ (result ≡ Ok Fed.Over) }
        ensures fault { fault_of self.new ≡ fault_in result }
        ensures counted { self.new.lines ≤ self.old.lines + 1 }
        ensures again { (fault : FeedFault) → fault_of self.old ≡ Some fault → (result ≡ Err fault)
            × (self.new ≡ self.old) }
    {
        match read_feed_line(line) {
            Ok(read) => {
                keep_numbers(&mut self.spelled, line, &read);
                self.take(Some(read))
            }
            Err(_) => self.take(None),
        }
    }

    /// Takes the next line by its form, as `line` takes its text. Its numbers aren't kept for `spelled`.
    ///
    /// # Errors
    ///
    /// Those of `line`.
    #[inline(always)]
    pub fn form(&mut self, line: FeedLine) -> Result<Fed, FeedFault>
        requires numerals { form.HasNumerals (form_of line) }
        requires unended { has_ended self.old ≡ false }
        ensures stands { (ls : List (List ℕ)) → StandsFor self.old ls →
            StandsBehind result self.new ls (form.feed_text (form_of line)) }
        ensures answer { (ls : List (List ℕ)) → StandsFor self.old ls →
            Answers (form.feed_text (form_of line)) (account_of_lines ls)
            (account_of_lines (ls ++ form.feed_text (form_of line) ∷ [])) result }
        ensures going { IfOk result (λ fed. (fed ≡ Fed.Over → ⊥) → IsGoing self.new) }
        ensures ended { (has_ended self.new ≡ true) ↔ (result ≡ Ok Fed.Over) }
        ensures fault { fault_of self.new ≡ fault_in result }
    {
        self.take(Some(line))
    }

    /// Accepts the job of the last line, which was answered as `Fed::Job`. It isn't accepted where too many jobs are
    /// ready at its release. No line came since.
    #[inline(always)]
    pub fn accept(&mut self, job: Job)
        requires { HasRoom self.old job }
        ensures { Accepts job self.old self.new }
    {
        if let Some(kept) = &mut self.session {
            kept.accept(job);
        }
    }

    /// The numbers of the last job line that `line` took and that had the form of one, with their text; before it four
    /// zeros.
    #[inline(always)]
    pub fn spelled(&self) -> &Spelled {
        &self.spelled
    }

    /// How many lines were taken, up to the first that is at fault.
    pub fn lines(&self) -> u64
        ensures { result ≡ self.now.lines }
    {
        self.lines
    }

    /// The mark, 0 before the ratio is declared.
    pub fn mark(&self) -> u64
        ensures { (ls : List (List ℕ)) → StandsFor self.now ls → result ≡ (account_of_lines ls).mark }
    {
        match &self.session {
            Some(kept) => kept.mark(),
            None => 0,
        }
    }

    /// The input ends here. It leaves all as before.
    ///
    /// # Errors
    ///
    /// The fault of an earlier line, or that there was no end line.
    pub fn end(&self) -> Result<(), FeedFault>
        ensures ended { IsOk result ↔ (has_ended self.now ≡ true) }
        ensures fault { (fault : FeedFault) → fault_of self.now ≡ Some fault → result ≡ Err fault }
        ensures answer { (ls : List (List ℕ)) → KeepsStanding self.now (account_of_lines ls) → EndAnswers ls result }
    {
        match self.standing {
            Standing::Open => Err(FeedFault {
                line: self.lines + 1,
                cause: Cause::Short,
            }),
            Standing::Over => Ok(()),
            Standing::Faulty(fault) => Err(fault),
        }
    }

    /// Takes so many tick lines at the mark, which change nothing but the number of lines.
    pub fn skip(&mut self, lines: u64)
        requires going { IsGoing self.old }
        requires room { HasLines self.old lines }
        ensures stands { (ls : List (List ℕ)) → StandsFor self.old ls →
            StandsFor self.new (ls ++ replicate lines (form.feed_text (form.TickLine (account_of_lines ls).mark))) }
        ensures going { IsGoing self.new }
    {
        self.lines += lines;
    }
}
