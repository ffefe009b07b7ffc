// The functions of `damvurit` are the calls that the demands speak of, each in the form that goes through C: a theorem over their contracts, in
// `proofs/CallsTied.antt`. There is no code here. The exports of `damvurit_c`, which C calls, have the same contracts.
// What stands in it is defined elsewhere: the calls in `demands`, the forms of results, arrays and directories in `damvurit`. It is a crate of
// its own so that the library does not wait for the demands.
#![tactic(auto)]
