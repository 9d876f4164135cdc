// What the library tells keeps the promises. No code: the theorems stand in specs/.
#![tactic(auto)]
