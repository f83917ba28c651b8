//! Layer 0, meaning: the store of one partition, its writes, and for how much it has room. There is no code here; the
//! crates above map what they hold to these definitions.
#![tactic(auto)]
