// Theorems only: histories that are computed (specs/Examples.antt).
#![tactic(auto)]
