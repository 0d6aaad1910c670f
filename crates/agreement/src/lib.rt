// No code: that what a descriptor admits, as narrowing has it, is what a request is granted on it. What is proved is in
// specs/Promises.antt.
#![tactic(auto)]
