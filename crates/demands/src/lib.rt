// Theory alone, and no code: the three demands as theorems about the calls' own answers and bytes, one file for each demand (`proofs/Demand1.antt`,
// `Demand2.antt`, `Demand3.antt`). What they are stated with stands in `specs/`. docs/DEMANDS.md leads from each sentence to its theorem.
#![tactic(auto)]
