// A listing of plans: how far it has come, and where its next plan is looked for.
//
// The state (`state`) is fresh, running, ended or full. Its next plan (`seek`) is looked for from the
// root or by a step back from the choices of the last plan (`choices`), and each plan handed out is
// counted for its atoms (`tallies`).

#![tactic(auto)]

pub mod choices;
pub mod seek;
pub mod state;
pub mod tallies;
