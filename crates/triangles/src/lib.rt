// The queries of two bodies, one by one. No code: the laws stand in specs/.
#![tactic(auto)]
