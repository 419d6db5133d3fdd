// Tools on lists that the definitions of the other crates are written with, and their laws. There is no code here.
//
// specs/Lists.antt has the tools, and specs/Restated.antt says in plain words what a search, a count and a neighbour are. proofs/ has the laws: Tests of
// `and`, `or` and `not`; Laws of searches; Reflect and RestatedLists, each test with the words that it decides; Ranges, Tables and Blocks of tables by
// place; Sums; Snoc of one element more; AllAt and FilledTables of a loop over a list from the front; Chains of iterators and of arrays made by place.

#![tactic(auto)]
