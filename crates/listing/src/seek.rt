// Looking for the next plan, where the state of the listing says.
//
// The search works on a stack over the room of the choices, and how many are open when it has found
// a plan is kept for the next time.
ghost use Rattle.std.specs.Prelude.{◌≡◌, ◌≤◌, false, length, is_some, unwrap_or, IfSome, None, vec_len};
ghost use Rattle.semantics.specs.Plans.{over};
ghost use Rattle.derivation.specs.Rulesets.{atoms_in, rules_in};
ghost use Rattle.bounds.specs.Programs.{program_of};
ghost use Rattle.listing.specs.States.{listing_of};
ghost use Rattle.listing.specs.Seeking.{newest_of, opened, GoesOn};

use crate::choices::Choices;
use crate::state::Listing;
use bounds::program::Program;
use derivation::ruleset::Ruleset;
use enumeration::enumerate::{plan_after, plan_from};
use lines::stack::Stack;
use modules::query::Module;
use semantics::Literal;

// Looks for the next plan where the listing stands, and leaves its choices open. Whether there is one.
pub fn seek<M: Module>(
    listing: Listing,
    rules: &Ruleset,
    bank: &M,
    choices: &mut Choices,
    plan: &mut [u8],
) -> bool
    requires plan_size { length plan.old ≡ atoms_in rules.now }
    requires room { vec_len choices.old.room ≡ atoms_in rules.now }
    ensures room { vec_len choices.new.room ≡ vec_len choices.old.room }
    ensures kept { result ≡ false → plan.new ≡ plan.old }
    ensures goes_on { GoesOn (listing_of listing) (over (M.Module.meaning bank.now) (atoms_in rules.now) (rules_in rules.now)) (opened choices.old) (opened choices.new) plan.new result }
{
    let program = Program { rules, bank };
    let room = choices.room.as_mut_slice();
    let open = open_at_next(listing, &program, room, choices.depth, plan);
    choices.depth = open.unwrap_or(choices.depth);
    open.is_some()
}

// How many choices are open at the next plan, if there is one.
fn open_at_next<M: Module>(
    listing: Listing,
    program: &Program<M>,
    room: &mut [Literal],
    depth: usize,
    plan: &mut [u8],
) -> Option<usize>
    requires plan_size { length plan.old ≡ atoms_in program.now.rules.now }
    requires room_size { length room.old ≡ atoms_in program.now.rules.now }
    requires within { depth ≤ length room.old }
    ensures within { IfSome result (λ left. left ≤ length room.new) }
    ensures kept { is_some result ≡ false → plan.new ≡ plan.old }
    ensures goes_on { GoesOn (listing_of listing) (program_of M.Module.meaning program.now) (newest_of depth room.old) (newest_of (unwrap_or result depth) room.new) plan.new (is_some result) }
{
    match listing {
        Listing::Fresh => {
            let mut open = Stack::new(room);
            plan_from(program, &mut open, plan).then_some(open.len())
        }
        Listing::Running => {
            let mut open = Stack::resume(room, depth);
            plan_after(program, &mut open, plan).then_some(open.len())
        }
        Listing::Ended | Listing::Full => None,
    }
}
