// What is claimed of parts gathered as they come, over the definitions of crate reassembly: specs/Claims.antt says it, and proofs/Claims.antt has the theorems. There is no code here.
#![tactic(auto)]
