// The three demands and their proofs. There is no code here.
//
// specs/: CallLists, lists of calls and the file of a close; Exact, the exact fraction; Demands, the three statements; Witness, a file that gets a level.
// proofs/: Demand1, Demand2 and Demand3; Held, what record and blocks keep of the lines so far; Bound, how far rounding can lead; Witness; SomePoints, why
// the count is never 0.

#![tactic(auto)]
