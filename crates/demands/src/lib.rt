// What is demanded of the whole, as laws over the calls of the operations: proofs/Demands.antt. No code: the laws are about the records
// that the operations' contracts promise of a call.

#![tactic(auto)]
