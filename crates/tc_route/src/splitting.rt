//! The commands of a window, shared out to partitions.

ghost use Rattle.std.specs.Prelude.{◌≡◌, ℕ, ◌<◌, ◌%◌, ◌==◌, ◌++◌, ◌∷◌, [], IfOk, OnOk, length, map, if◌then◌else◌};
ghost use Rattle.tc_command.specs.Commands.{ask_of, request_of_command};
ghost use Rattle.tc_request_model.specs.Request.{query};
ghost use Rattle.tc_route.specs.Shares.{share};
ghost use Rattle.tc_route.specs.Meaning.{routed_of, requests_at};

use crate::placed::Routed;
use std::alloc::Global;
use tc_bytes::Memory;
use tc_command::{Ask, Command};

/// The commands that each of so many partitions gets of a window, in the order of the window: one with a key goes to the
/// partition whose number is the rest of the key, a query goes to all, and a command for the whole store to none. Errs
/// only for want of memory.
pub fn split(
    alloc: Global,
    window: Vec<Routed>,
    partitions: u32,
) -> Result<Vec<Vec<Routed>>, Memory>
    requires { 0 < partitions }
    ensures count { IfOk result (λ parts. length parts.items ≡ partitions) }
    ensures each { IfOk result (λ parts. (p : ℕ) → p < partitions → requests_at p parts.items ≡ share partitions p (map routed_of window.items)) }
{
    let mut parts = nothing_for(alloc, partitions)?;
    for routed in window {
        hand_out(alloc, routed, &mut parts)?;
    }
    Ok(parts)
}

// A list without commands for each partition.
fn nothing_for(alloc: Global, partitions: u32) -> Result<Vec<Vec<Routed>>, Memory>
    ensures count { IfOk result (λ parts. length parts.items ≡ partitions) }
    ensures each { IfOk result (λ parts. (p : ℕ) → requests_at p parts.items ≡ []) }
{
    let mut parts = Vec::with_capacity(alloc, partitions as usize)?;
    for _ in 0..partitions {
        parts.push(Vec::new(alloc))?;
    }
    Ok(parts)
}

// Puts a command behind those of each partition that gets it.
fn hand_out(alloc: Global, routed: Routed, parts: &mut Vec<Vec<Routed>>) -> Result<(), Memory>
    requires { 0 < length parts.old.items }
    ensures count { length parts.new.items ≡ length parts.old.items }
    ensures each { OnOk result ((p : ℕ) → p < length parts.old.items → requests_at p parts.new.items ≡ requests_at p parts.old.items ++ share (length parts.old.items) p (routed_of routed ∷ [])) }
{
    let at = routed.at;
    match routed.command {
        Command::Upsert { key, doc } => give(at, key, Command::Upsert { key, doc }, parts),
        Command::Delete { key } => give(at, key, Command::Delete { key }, parts),
        Command::Get { key } => give(at, key, Command::Get { key }, parts),
        Command::Query(ask) => ask_all(alloc, at, &ask, parts),
        _whole => Ok(()),
    }
}

// Puts a command behind those of the partition of a key.
fn give(at: u32, key: u64, command: Command, parts: &mut Vec<Vec<Routed>>) -> Result<(), Memory>
    requires { 0 < length parts.old.items }
    ensures count { length parts.new.items ≡ length parts.old.items }
    ensures each { OnOk result ((p : ℕ) → p < length parts.old.items → requests_at p parts.new.items ≡ requests_at p parts.old.items ++ (if key % length parts.old.items == p then (at, request_of_command command) ∷ [] else [])) }
{
    let home = (key % parts.as_slice().len() as u64) as usize;
    parts[home].push(Routed { at, command })?;
    Ok(())
}

// Asks every partition.
fn ask_all(alloc: Global, at: u32, ask: &Ask, parts: &mut Vec<Vec<Routed>>) -> Result<(), Memory>
    ensures count { length parts.new.items ≡ length parts.old.items }
    ensures each { OnOk result ((p : ℕ) → p < length parts.old.items → requests_at p parts.new.items ≡ requests_at p parts.old.items ++ (at, query (ask_of ask.now)) ∷ []) }
{
    for p in 0..parts.as_slice().len() {
        let command = Command::Query(ask.copy(alloc)?);
        parts[p].push(Routed { at, command })?;
    }
    Ok(())
}
