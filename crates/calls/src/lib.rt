// Theorems only: what holds of every call of a head, and cases 1 to 12 (specs/Lib.antt).
#![tactic(auto)]
