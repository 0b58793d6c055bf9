//! An address or a file at which calls fail.
ghost use Rattle.std.specs.Prelude.{◌≡◌, None, false};
ghost use Rattle.chk_site_log.specs.Troubles.{behind_event, behind_failure, behind_success, is_free, recovered, tells_failure};

/// Two lines about one name lie so many milliseconds apart, or more.
pub const BETWEEN: u64 = 60_000;

/// Calls that failed and don't any more.
#[derive(Clone, Copy, Debug, PartialEq, Eq)]
pub struct Recovery {
    /// How many calls failed.
    pub failures: u64,
    /// From the first of them to the first one that didn't, in milliseconds.
    pub lasted: u64,
}

/// What was told of an address or a file, and what isn't yet. Moments are milliseconds of a clock that
/// doesn't go back.
#[derive(Drop)]
pub struct Trouble {
    pub name: String,
    /// How many calls failed since it was well; 0 where it is well.
    pub failures: u64,
    /// When the first of them failed.
    pub since: u64,
    /// When the first call behind the last failure went well.
    pub well: Option<u64>,
    /// That calls fail was told.
    pub told: bool,
    /// When the last line was told.
    pub said: Option<u64>,
}

impl Trouble {
    /// Of this name nothing was told, and no call failed.
    pub fn new(name: String) -> Trouble
        ensures name { result.name ≡ name }
        ensures failures { result.failures ≡ 0 }
        ensures well { result.well ≡ None }
        ensures told { result.told ≡ false }
        ensures said { result.said ≡ None }
    {
        Trouble {
            name,
            failures: 0,
            since: 0,
            well: None,
            told: false,
            said: None,
        }
    }

    /// A call failed. Whether that is to be told: it is where none failed before it, or as soon as a
    /// minute has passed since the last line.
    pub fn fail(&mut self, now: u64) -> bool
        ensures tells { result ≡ tells_failure now self.old }
        ensures trouble { self.new ≡ behind_failure now self.old }
    {
        if self.failures == 0 {
            self.since = now;
        }
        self.failures = self.failures.saturating_add(1);
        self.well = None;
        let tells = !self.told && self.is_free(now);
        if tells {
            self.told = true;
            self.said = Some(now);
        }
        tells
    }

    /// A call went well. What is to be told of those that failed before: nothing where that they fail
    /// wasn't told, and not before a minute has passed since the last line.
    pub fn succeed(&mut self, now: u64) -> Option<Recovery>
        ensures tells { result ≡ recovered now self.old }
        ensures trouble { self.new ≡ behind_success now self.old }
    {
        if self.failures == 0 {
            return None;
        }
        let well = self.well.unwrap_or(now);
        self.well = Some(well);
        if !self.told {
            self.rest();
            return None;
        }
        if !self.is_free(now) {
            return None;
        }
        let failures = self.failures;
        self.rest();
        self.said = Some(now);
        Some(Recovery {
            failures,
            lasted: well.saturating_sub(self.since),
        })
    }

    /// Something else is to be told of the name: whether a line may be.
    pub fn happen(&mut self, now: u64) -> bool
        ensures tells { result ≡ is_free now self.old.said }
        ensures trouble { self.new ≡ behind_event now self.old }
    {
        let tells = self.is_free(now);
        if tells {
            self.said = Some(now);
        }
        tells
    }

    // It is well, and nothing is left to be told.
    fn rest(&mut self)
        ensures { self.new ≡ record self.old { failures = 0; well = None; told = false } }
    {
        self.failures = 0;
        self.well = None;
        self.told = false;
    }

    // A minute has passed since the last line.
    fn is_free(&self, now: u64) -> bool
        ensures { result ≡ is_free now self.now.said }
    {
        match self.said {
            Some(said) => now.saturating_sub(said) >= BETWEEN,
            None => true,
        }
    }
}
