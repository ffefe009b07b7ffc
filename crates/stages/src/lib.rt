// The two stages of a transfer, request 9 of document 02: one statement over one table of cases, in `specs/Stages.antt`, and its proof, which is the
// checker's own computation of every call. There is no code here.
#![tactic(auto)]
