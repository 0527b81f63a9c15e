// Laws only: what the text of a file can be.

#![tactic(auto)]
