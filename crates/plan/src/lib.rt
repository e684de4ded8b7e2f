// Definitions and theorems only: decide's a to d and form, what each stores, and what is true of the record after (specs/Lib.antt).
#![tactic(auto)]
