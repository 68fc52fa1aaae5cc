// The marker list: what a list lent with a count is, and what entering, clearing and stamping make
// of it. It stands in specs/; the code is in `records`.
#![tactic(auto)]
