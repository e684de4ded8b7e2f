// Theorems only: histories of many heads, and that there is only one count.
#![tactic(auto)]
