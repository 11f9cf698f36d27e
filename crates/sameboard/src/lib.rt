// Both methods give the same answers: the blackboard's draw and projection, and those of the first method. There is no code: specs/ has the statement
// and proofs/ its proof.
#![tactic(auto)]
