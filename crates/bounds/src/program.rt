// What is solved: the lines in force over a bank of modules.
use derivation::ruleset::Ruleset;

#[derive(Drop)]
pub struct Program<'a, M> {
    pub rules: &'a Ruleset,
    pub bank: &'a M,
}
