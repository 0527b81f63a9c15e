// What the definitions of the join say together, over any calls of it. No code. These laws go through the text of the definitions, and
// are above their crate for that reason: there, an edit of a definition is refused by the fact that it breaks (D-33).

#![tactic(auto)]
