// The eleven cases of document 01, "Cases proved together": one statement over one table, in `specs/Cases.antt`, and its proof, which is the
// checker's own computation of every call. There is no code here.
#![tactic(auto)]
