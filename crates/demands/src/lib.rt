// What is shown across the steps, about the operations' own definitions: demand 3, that more error never looks better, that the projection takes what
// a batch of findings posts, that a summary finds the row's own items, and the practice sheet. There is no code: specs/ has the statements and proofs/ their proofs.
#![tactic(auto)]
