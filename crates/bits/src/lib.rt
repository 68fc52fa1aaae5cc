// The bits of a word: what they are, and what the machine's operations do to them. There is no code
// here, only definitions and laws.
#![tactic(auto)]
