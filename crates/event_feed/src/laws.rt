//! What the feed of some jobs says.
ghost use Rattle.std.specs.Prelude.{◌≡◌, []};
ghost use Rattle.dover_model.specs.Common.{Instance, IsValid, declared_by, IsDeclarable, IsNeverFull, session_of};
ghost use Rattle.event_feed.specs.Feeds.{IsFeedOf, feed_of};

/// The feed of valid jobs, whose rules may be declared, and of which none finishes early, and none finds it full at its
/// release, ends without a fault, and says these jobs and no others.
pub fn feeds_of_jobs_are_read()
    ensures { (J : Instance) → IsValid J → IsDeclarable (declared_by J.rules) → J.rules.finishes ≡ []
        → IsNeverFull (session_of J) → IsFeedOf J (feed_of J) }
{}
