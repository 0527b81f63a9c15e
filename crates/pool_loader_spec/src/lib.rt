// What a pooled load means: the records of two tag files taken together. Definitions and their laws; the code is in `pool_loader`.

#![tactic(auto)]
