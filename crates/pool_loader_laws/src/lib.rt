// What a pooled load of two tag files comes to: the end laws over the record of its call. No code: the laws are about the
// definitions of the pooled load, the writer and the join, which their contracts repeat.

#![tactic(auto)]
