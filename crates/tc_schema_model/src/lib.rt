//! Layer 0, meaning: what a schema counts, its tree with unions, its bytes and its text, and what one shape more or less
//! changes. There is no code here; the crates above map their types to these definitions.
#![tactic(auto)]
