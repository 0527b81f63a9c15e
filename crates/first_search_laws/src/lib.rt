// The search for the first left set beside the join over the same left sets. No code: the laws are about the definitions of both,
// which their contracts repeat.

#![tactic(auto)]
