// Theorems only: the formed sessions of every history have different numbers, and each shares a head with the one before (specs/Safety.antt).
#![tactic(auto)]
