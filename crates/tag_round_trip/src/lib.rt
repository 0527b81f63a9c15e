// The round trip of tag files: what the loader took from a file, written and loaded again, is the same. No code: the theorem
// is about the definitions of the loader and the writer, which their contracts repeat.

#![tactic(auto)]
