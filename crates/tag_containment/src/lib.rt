// From tags to pairs: what the loader takes from a file's bytes and what the join makes of it, said over the records' tags. No
// code: the laws are about the definitions of the loader and the join, which their contracts repeat.

#![tactic(auto)]
