ghost use Rattle.std.specs.Prelude.{◌≡◌, ◌≢◌};
ghost use Rattle.dover_port.specs.declared.calls.Calls.TheVariants.{Well, LastFailed, WentOn};

/// How the calls of a port went.
#[derive(Clone, Copy, Debug, PartialEq, Eq)]
pub enum Calls {
    /// None failed.
    Well,
    /// The last one failed, and no other.
    LastFailed,
    /// A call was made after one that had failed.
    WentOn,
}

impl Calls {
    /// After one more call, which did not fail.
    pub(crate) fn and_one(self) -> Calls
        ensures well { self ≡ Well → result ≡ Well }
        ensures went_on { self ≢ Well → result ≡ WentOn }
    {
        match self {
            Calls::Well => Calls::Well,
            _ => Calls::WentOn,
        }
    }

    /// After one more call, which failed.
    pub(crate) fn and_a_failed(self) -> Calls
        ensures stopped { self ≡ Well → result ≡ LastFailed }
        ensures went_on { self ≢ Well → result ≡ WentOn }
    {
        match self {
            Calls::Well => Calls::LastFailed,
            _ => Calls::WentOn,
        }
    }
}
