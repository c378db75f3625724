// No code: the tests and choices in whose words the definitions of all crates are written, and laws about them.
#![tactic(auto)]
