// What the proofs by hand share: functions over a slice of marker records, which the borrow checker
// does not cover, are walked statement by statement. There is no code here, only definitions and
// laws of walking.
#![tactic(auto)]
