// What the step program's answers come to, over any lines and any input. Its claims are in specs/ and proofs/; nothing runs here.

#![tactic(auto)]
