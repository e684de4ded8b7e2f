// Definitions and theorems only: the kinds of change, recovery, and that recovery completes every change that has begun (specs/Lib.antt).
#![tactic(auto)]
