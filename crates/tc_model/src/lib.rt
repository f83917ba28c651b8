//! Layer 0, meaning: documents and their JSON, dictionaries, values by key, and the lines of an input. There is no code
//! here; the crates above map their types to these definitions.
#![tactic(auto)]
