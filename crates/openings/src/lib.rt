// What an account opens with, request 2 of document 02: one statement over one table of cases, in `specs/Openings.antt`, and its proof, which is the
// checker's own computation of every call. There is no code here.
#![tactic(auto)]
