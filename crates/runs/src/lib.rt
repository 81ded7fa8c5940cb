// No code: theorems about whole lists of calls of the board's operations, over the very definitions that the contracts of
// those operations cite.
#![tactic(auto)]
