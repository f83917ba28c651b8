//! Which writes that were read of logs a partition makes.

ghost use Rattle.std.specs.Prelude.{◌≡◌, ◌↔◌, List, All, map};
ghost use Rattle.std.specs.List.{AllByRecursion};
ghost use Rattle.tc_log.specs.declared.write.Write.{Write as LogWrite};
ghost use Rattle.tc_log.specs.Writes.{IsWrite};
ghost use Rattle.tc_plain_model.specs.Writes.{Write};
ghost use Rattle.tc_machine.specs.Logs.{all_writes, kept_write};
ghost use Rattle.tc_machine.specs.Writes.{IsStorableWrite};
ghost use Rattle.tc_lawful.specs.Logs.{AreStored, IsShort};

/// A law, and no work. Logs keep writes that a partition makes exactly where they keep writes, of which each record is
/// short enough to be compacted; and they keep these alone.
pub fn short_writes_are_stored()
    ensures stored { (read : List (List LogWrite)) → (All (AllByRecursion IsWrite) read × All (AllByRecursion IsShort) read) ↔ AreStored read }
    ensures one { (logs others : List (List Write)) → All IsStorableWrite (all_writes logs) → All IsStorableWrite (all_writes others) → map (map kept_write) logs ≡ map (map kept_write) others → logs ≡ others }
{}
