// The demands of document 01 over the calls of `centre`: statements in `specs/`, each a type under a sentence that says what it is, and their
// proofs, a value of each type, in `proofs/`. There is no code here.
// Every line of `specs/Calls.antt` cites the definition that the contract of that call cites, so what is proved holds of the code itself.
// `proofs/CallsTied.antt` proves that over the contracts.
// That every call ends is not stated: the checker accepts no function that does not.
#![tactic(auto)]
