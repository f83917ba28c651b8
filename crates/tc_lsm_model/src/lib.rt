//! Layer 0, meaning: what components hold, one and in a list, memory tables over them, and what a flush and a merge make.
//! There is no code here but laws, which are functions that do nothing.
#![tactic(auto)]

mod laws;

pub use laws::{
    flushes_hold_logs, flushes_hold_tables, flushes_learn_names, lists_have_schemas,
    lists_know_names, merges_keep_lists, merges_take_newest, newest_entries_count, runs_stay,
    tables_come_first, tables_count, tables_show_writes,
};
