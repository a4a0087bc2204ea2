// No code: document 01's starred desk examples, and demand 3 over the public calls, stand in specs/ and proofs/.

#![tactic(auto)]
