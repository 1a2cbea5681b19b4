// The mathematics of rounding, in specs/ and proofs/: the convergents of a ratio, the last of them
// that a limit holds, and why no other pair that the limit holds does better. It has no code: the
// crate slash runs it.

#![tactic(auto)]
