// No code: the steward's theorem, over board and archive together. Its statement is specs/Steward.antt.
#![tactic(auto)]
