// How far a listing has come.
//
// While it is running, the open choices are those of the last plan, so that looking for the
// next one begins with a step back. It ends where there are no more, and it is full at a million
// plans.
ghost use Rattle.std.specs.Prelude.{◌≡◌};
ghost use Rattle.semantics.specs.Sheets.{is_ended};
ghost use Rattle.listing.specs.States.{listing_of, after_plan};

// The most plans that a listing hands out.
pub const MOST: u32 = 1_000_000;

#[derive(Clone, Copy, PartialEq, Eq, Debug)]
pub enum Listing {
    Fresh,
    Running,
    Ended,
    Full,
}

impl Listing {
    // The listing after a plan, with so many handed out.
    pub fn after_plan(handed: u32) -> Listing
        ensures { listing_of result ≡ after_plan handed }
    {
        if handed == MOST {
            Listing::Full
        } else {
            Listing::Running
        }
    }

    pub fn is_ended(self) -> bool
        ensures { result ≡ is_ended (listing_of self) }
    {
        self == Listing::Ended
    }
}
