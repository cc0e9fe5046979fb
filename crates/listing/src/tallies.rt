// For each atom, how many of the plans handed out have it.
ghost use Rattle.std.specs.Prelude.{◌≡◌, length, replicate};
ghost use Rattle.listing.specs.Tallies.{Counted};

// None so far.
pub fn clear(tallies: &mut [u32])
    ensures { tallies.new ≡ replicate (length tallies.old) 0 }
{
    tallies.fill(0);
}

// One more for each atom of the plan.
pub fn count(tallies: &mut [u32], plan: &[u8])
    requires { length plan.now ≡ length tallies.old }
    ensures { Counted plan.now tallies.old tallies.new }
{
    for (atom, tally) in tallies.iter_mut().enumerate() {
        if plan[atom] == 1 {
            *tally = tally.saturating_add(1);
        }
    }
}
