// The promises of the public operations leave no freedom. There is no code: each promise is the operation's own, specs/ says what no freedom
// means and proofs/ shows it.
#![tactic(auto)]
