ghost use Rattle.std.specs.Prelude.{◌≡◌};
ghost use Rattle.dictionary.specs.Tallies.{SumsUp, Within, added, given_back, no_lookups, posted, posted_as};

// An open tally takes this many slips.
const MOST_LOOKUPS: u32 = 1_000_000;

// What one lookup cost. It cannot be copied or let go, and only this crate makes one, so it is posted to exactly one tally.
pub struct Slip {
    // entries met
    met: u32,
    // pairs of symbols compared
    pairs: u32,
}

impl Slip {
    // For a lookup alone.
    pub(crate) fn new(met: u32, pairs: u32) -> Slip
        ensures { result ≡ record { met = met; pairs = pairs } }
    {
        Slip { met, pairs }
    }

    // How many entries the lookup met.
    pub fn met(&self) -> u32
        ensures { result ≡ self.now.met }
    {
        self.met
    }

    // How many pairs of symbols it compared.
    pub fn pairs(&self) -> u32
        ensures { result ≡ self.now.pairs }
    {
        self.pairs
    }
}

// How many slips were posted, and the sums of what they carried.
#[derive(Clone, Copy, Debug)]
struct Sums {
    lookups: u32,
    met: u64,
    pairs: u64,
}

impl Sums {
    // No lookup yet.
    fn new() -> Sums
        ensures { result ≡ no_lookups }
    {
        Sums {
            lookups: 0,
            met: 0,
            pairs: 0,
        }
    }
}

// A tally that slips are posted to. It cannot be read, and it cannot be let go, so that no bill is lost: it is closed.
pub struct OpenTally {
    sums: Sums,
    ghost within: { Within sums },
}

// A tally that can be read and takes no more slips. Nothing opens it again.
#[must_use]
#[derive(Clone, Copy, Debug)]
pub struct ClosedTally {
    sums: Sums,
}

// Why a post is refused: the tally has all the slips that it takes. The slip comes back.
pub struct TallyFull {
    slip: Slip,
}

impl TallyFull {
    // The number that the rules give this refusal, which is the only one of its type.
    pub fn number(&self) -> u8
        ensures { result ≡ (given_back self.now).number }
    {
        10
    }

    // The slip that was to be posted.
    pub fn slip(self) -> Slip
        ensures { result ≡ (given_back self).slip }
    {
        let TallyFull { slip } = self;
        slip
    }
}

impl OpenTally {
    // A tally without lookups.
    pub fn new() -> OpenTally
        ensures value { result.sums ≡ no_lookups }
        ensures runs { SumsUp }
    {
        OpenTally { sums: Sums::new() }
    }

    // A tally with one lookup.
    pub fn with(slip: Slip) -> OpenTally
        ensures { result.sums ≡ added no_lookups slip }
    {
        let Slip { met, pairs } = slip;
        OpenTally {
            sums: Sums {
                lookups: 1,
                met: u64::from(met),
                pairs: u64::from(pairs),
            },
        }
    }

    // Takes a slip into the sums. A tally that has 1,000,000 refuses with 10, gives the slip back and stays as it was.
    pub fn post(&mut self, slip: Slip) -> Result<(), TallyFull>
        ensures answer { posted_as result ≡ (posted self.old.sums slip).answer }
        ensures after { self.new.sums ≡ (posted self.old.sums slip).after }
    {
        let sums = &mut self.sums;
        if sums.lookups == MOST_LOOKUPS {
            return Err(TallyFull { slip });
        }
        let Slip { met, pairs } = slip;
        sums.lookups += 1;
        sums.met += u64::from(met);
        sums.pairs += u64::from(pairs);
        Ok(())
    }

    // Ends the posting: the same sums, now to be read.
    pub fn close(self) -> ClosedTally
        ensures { result.sums ≡ self.sums }
    {
        let OpenTally { sums } = self;
        ClosedTally { sums }
    }
}

impl ClosedTally {
    // How many lookups were posted.
    pub fn lookups(&self) -> u32
        ensures { result ≡ self.now.sums.lookups }
    {
        self.sums.lookups
    }

    // How many entries they met, all together.
    pub fn met(&self) -> u64
        ensures { result ≡ self.now.sums.met }
    {
        self.sums.met
    }

    // How many pairs of symbols they compared, all together.
    pub fn pairs(&self) -> u64
        ensures { result ≡ self.now.sums.pairs }
    {
        self.sums.pairs
    }
}
