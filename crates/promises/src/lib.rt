// What is promised, on one page: `specs/Promises`. Each field of its one record is a promised sentence, and `proofs/Promises` has the one theorem that all
// of them hold. There is no code here.
#![tactic(auto)]
