//! Layer 0, meaning: what a line asks for, what a path reaches, and what the plain store of one partition replies. There is
//! no code here; the crates above map what they hold to these definitions.
#![tactic(auto)]
