//! Laws of components, memory tables, flushes and merges, which the contracts of the crates above rely on.

ghost use Rattle.std.specs.Prelude.{◌≡◌, ◌+◌, ◌<◌, ◌≤◌, ◌^◌, ℕ, List, [], ◌∷◌, ◌++◌, Option, Some, None, All, IfSome, length, bytes_eq, unwrap_or, option_to_list, flat_map};
ghost use Rattle.std.specs.List.{IsDistinct};
ghost use Rattle.tc_model.specs.Document.{Name, Document};
ghost use Rattle.tc_model.specs.Dictionary.{Extends, IsDictionary};
ghost use Rattle.tc_model.specs.Kinds.{Kind};
ghost use Rattle.tc_model.specs.Keyed.{Ascends, value_of, values_in};
ghost use Rattle.tc_schema_model.specs.Occurrences.{Path, count};
ghost use Rattle.tc_schema_model.specs.SchemaBytes.{IsSchema};
ghost use Rattle.tc_schema_model.specs.Stands.{StandsFor};
ghost use Rattle.tc_plain_model.specs.Writes.{Pairs, Write, after_writes};
ghost use Rattle.tc_plain_model.specs.Store.{names_after, reopened};
ghost use Rattle.tc_lsm_model.specs.Contents.{Partition, Content, IsNamedIn};
ghost use Rattle.tc_lsm_model.specs.Lists.{live, newest_entry, names_of, schema_of, last_of, IsList};
ghost use Rattle.tc_lsm_model.specs.Tables.{Slot, Table, writes_of, over, KeepsShapes, shapes_held, shapes_below, occurring, table_over};
ghost use Rattle.tc_lsm_model.specs.Flushes.{IsFlush};
ghost use Rattle.tc_lsm_model.specs.Merges.{Run, in_run, swapped, entries_of, last_entries, IsMerge};

/// A law, and no work. A table that writes make over what is stored shows what they leave of it, keeps the shapes of what
/// is below, and ascends.
pub fn tables_show_writes()
    ensures shown { (pairs : Pairs) (ws : List Write) → Ascends pairs → over pairs (table_over pairs ws) ≡ after_writes pairs ws }
    ensures keeps { (pairs : Pairs) (ws : List Write) → KeepsShapes pairs (table_over pairs ws) }
    ensures ascends { (pairs : Pairs) (ws : List Write) → Ascends (table_over pairs ws) }
{}

/// A law, and no work. What a table has of a key counts before what is below it.
pub fn tables_come_first()
    ensures held { (pairs : Pairs) (t : Table) (key : ℕ) (s : Slot) → Ascends pairs → Ascends t → value_of key t ≡ Some s → value_of key (over pairs t) ≡ s.held }
    ensures below { (pairs : Pairs) (t : Table) (key : ℕ) → Ascends pairs → Ascends t → value_of key t ≡ None → value_of key (over pairs t) ≡ value_of key pairs }
{}

/// A law, and no work. Where a table lies over documents, the shapes of what it holds are added to what they count, and
/// those that it keeps are taken off. Entry by entry: with those before it over the documents, an entry still keeps the
/// shape of what its key has.
pub fn tables_count()
    ensures counted { (pairs : Pairs) (t : Table) (path : Path) (kind : Kind) → Ascends pairs → Ascends t → KeepsShapes pairs t
        → count (values_in (over pairs t)) path kind + occurring (shapes_below t) path kind ≡ count (values_in pairs) path kind + occurring (shapes_held t) path kind }
    ensures rest { (pairs : Pairs) (before behind : Table) → Ascends pairs → Ascends (before ++ behind) → KeepsShapes pairs (before ++ behind) → KeepsShapes (over pairs before) behind }
{}

/// A law, and no work. What is live at a key is what the newest entry of the key says, if there is one. That is the entry
/// of a content where all newer ones have none.
pub fn newest_entries_count()
    ensures live { (part : Partition) (cs : List Content) (key : ℕ) → IsList part cs → value_of key (live cs) ≡ unwrap_or (newest_entry key cs) None }
    ensures found { (older newer : List Content) (c : Content) (key : ℕ) (held : Option Document) → value_of key c.entries ≡ Some held → All (λ d. value_of key d.entries ≡ None) newer
        → newest_entry key (older ++ c ∷ newer) ≡ Some held }
    ensures none { (cs : List Content) (key : ℕ) → All (λ c. value_of key c.entries ≡ None) cs → newest_entry key cs ≡ None }
    ensures ascends { (cs : List Content) → Ascends (live cs) }
{}

/// A law, and no work. The names of a list are a dictionary that has each name of what is live, and a longer list goes on
/// from the names of its front.
pub fn lists_know_names()
    ensures dictionary { (part : Partition) (cs : List Content) → IsList part cs → IsDictionary (names_of cs) }
    ensures live { (part : Partition) (cs : List Content) → IsList part cs → All (λ p. IsNamedIn (names_of cs) p.1) (live cs) }
    ensures extends { (part : Partition) (older newer : List Content) → IsList part (older ++ newer) → Extends (names_of (older ++ newer)) (names_of older) }
{}

/// A law, and no work. The schema of a list, under the names of the list, stands for what is live in it, and can be
/// written; so many documents and generations as a list has have numbers.
pub fn lists_have_schemas()
    ensures stands { (part : Partition) (cs : List Content) → IsList part cs → StandsFor (names_of cs) (schema_of cs) (values_in (live cs)) }
    ensures lawful { (part : Partition) (cs : List Content) → IsList part cs → IsSchema (length (names_of cs)) (schema_of cs) }
    ensures room { (part : Partition) (cs : List Content) → IsList part cs → length (live cs) < 2 ^ 32 }
    ensures last { (part : Partition) (cs : List Content) → IsList part cs → last_of cs < 2 ^ 63 }
{}

/// A law, and no work. The names that a flush gives its content go on from those of the list, stay distinct, and have each
/// name of what is then live. They are no more than those of any dictionary that does so. The documents whose names they
/// learn are those that the entries set, one after the other.
pub fn flushes_learn_names()
    ensures extends { (names : List Name) (ws : List Write) → Extends (names_after names ws) names }
    ensures distinct { (names : List Name) (ws : List Write) → IsDistinct bytes_eq names → IsDistinct bytes_eq (names_after names ws) }
    ensures written { (names : List Name) (ws : List Write) → Ascends ws → All (λ w. IfSome w.1 (IsNamedIn (names_after names ws))) ws }
    ensures documents { (ws : List Write) → Ascends ws → values_in (after_writes [] ws) ≡ flat_map (λ w. option_to_list w.1) ws }
    ensures live { (part : Partition) (cs : List Content) (t : Table) → IsList part cs → Ascends t → All (λ p. IsNamedIn (names_after (names_of cs) (writes_of t)) p.1) (over (live cs) t) }
    ensures few { (names more : List Name) (ws : List Write) → IsDistinct bytes_eq names → Extends more names → All (λ w. IfSome w.1 (IsNamedIn more)) ws → length (names_after names ws) ≤ length more }
{}

/// A law, and no work. A list with the flush of a table behind it is a list that holds what the table shows over it, with
/// the flush's names, schema and last generation. There is one such flush.
pub fn flushes_hold_tables()
    ensures list { (part : Partition) (cs : List Content) (t : Table) (generations : ℕ) (c : Content) → IsList part cs → IsFlush part cs t generations c → IsList part (cs ++ c ∷ []) }
    ensures live { (part : Partition) (cs : List Content) (t : Table) (generations : ℕ) (c : Content) → IsFlush part cs t generations c → live (cs ++ c ∷ []) ≡ over (live cs) t }
    ensures names { (cs : List Content) (c : Content) → names_of (cs ++ c ∷ []) ≡ c.names }
    ensures schema { (cs : List Content) (c : Content) → schema_of (cs ++ c ∷ []) ≡ c.schema }
    ensures last { (cs : List Content) (c : Content) → last_of (cs ++ c ∷ []) ≡ c.to }
    ensures one { (part : Partition) (cs : List Content) (t : Table) (generations : ℕ) (c d : Content) → IsFlush part cs t generations c → IsFlush part cs t generations d → c ≡ d }
{}

/// A law, and no work. The table of what logs say over a list, flushed, makes of the list what an opening finds.
pub fn flushes_hold_logs()
    ensures { (part : Partition) (cs : List Content) (logged : List Write) (generations : ℕ) (c : Content) → IsFlush part cs (table_over (live cs) logged) generations c
        → reopened (live cs) (names_of cs) logged ≡ record { pairs = live (cs ++ c ∷ []); taken = c.names } }
{}

/// A law, and no work. With a merge in place of its run, a list is one still, and what it holds, its names, its schema and
/// its last generation stay; so a flush behind it stays one. A run has one merge.
pub fn merges_keep_lists()
    ensures list { (part : Partition) (run : Run) (cs : List Content) (c : Content) → IsList part cs → IsMerge (in_run run cs) c → IsList part (swapped run c cs) }
    ensures live { (part : Partition) (run : Run) (cs : List Content) (c : Content) → IsList part cs → IsMerge (in_run run cs) c → live (swapped run c cs) ≡ live cs }
    ensures names { (part : Partition) (run : Run) (cs : List Content) (c : Content) → IsList part cs → IsMerge (in_run run cs) c → names_of (swapped run c cs) ≡ names_of cs }
    ensures schema { (part : Partition) (run : Run) (cs : List Content) (c : Content) → IsList part cs → IsMerge (in_run run cs) c → schema_of (swapped run c cs) ≡ schema_of cs }
    ensures last { (part : Partition) (run : Run) (cs : List Content) (c : Content) → IsList part cs → IsMerge (in_run run cs) c → last_of (swapped run c cs) ≡ last_of cs }
    ensures flush { (part : Partition) (run : Run) (cs : List Content) (c : Content) (t : Table) (generations : ℕ) (flushed : Content) → IsList part cs → IsMerge (in_run run cs) c
        → IsFlush part cs t generations flushed → IsFlush part (swapped run c cs) t generations flushed }
    ensures one { (run : List Content) (c d : Content) → IsMerge run c → IsMerge run d → c ≡ d }
{}

/// A law, and no work. The last entries of contents are the newest of their keys, and no other entries in ascending key
/// are.
pub fn merges_take_newest()
    ensures { (run : List Content) (entries : List Write) → All (λ c. Ascends c.entries) run → Ascends entries → ((key : ℕ) → value_of key entries ≡ newest_entry key run) → entries ≡ last_entries (entries_of run) }
{}

/// A law, and no work. A run of a list stays where contents are added behind the list, and so do they where its merge is
/// put in place of it.
pub fn runs_stay()
    ensures run { (run : Run) (cs more : List Content) → run.first + run.length ≤ length cs → in_run run (cs ++ more) ≡ in_run run cs }
    ensures swapped { (run : Run) (c : Content) (cs more : List Content) → run.first + run.length ≤ length cs → swapped run c (cs ++ more) ≡ swapped run c cs ++ more }
{}
