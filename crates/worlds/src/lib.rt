// Definitions and theorems only: the bench as a whole (specs/Lib.antt).
#![tactic(auto)]
