// Two snapshots compared, and list and search: definitions in specs/, the theorems in proofs/Claims.antt and
// proofs/ListSearch.antt. There is no code.
#![tactic(auto)]
