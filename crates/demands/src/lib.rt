// Laws of readers and writers, kind by kind: demand 3 in proofs/Demands.antt, demand 2 and limits of what is written in the files beside it.
// The known messages of document 01, as one table; specs/Rows.antt has it, and proofs/Known.antt proves every row.
#![tactic(auto)]
