// Theorems only: what the bench prints of formed sessions is those of the history that its events are (specs/Printed.antt).
#![tactic(auto)]
