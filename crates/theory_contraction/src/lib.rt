// What the contraction's public call is lent, its faults and its outcome: definitions in specs/. They stand apart from the call's code, so that the list's
// theory and the checks need not wait for it.
#![tactic(auto)]
