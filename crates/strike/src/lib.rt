// Demand 3 over any machine that keeps certain laws: what happens in a seat depends on that seat's own calls alone, and a take-back leaves no
// trace. This crate has no code. The machine and its laws stand in `specs/Machine.antt`, the demand in `specs/Strike.antt`, its proof in
// `proofs/Struck.antt`; the calls of the centre supply the laws.
#![tactic(auto)]
