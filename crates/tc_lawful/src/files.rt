//! When the files that an opening reads are lawful.

ghost use Rattle.std.specs.Prelude.{◌≡◌, ◌<◌, ◌↔◌, ℕ, List, Some, Result, Ok, Err, length, map};
ghost use Rattle.std.specs.List.Sorted.{IsStrictlySortedBy};
ghost use Rattle.tc_bytes.specs.Codec.{IsBytes};
ghost use Rattle.tc_store.specs.declared.file_name.FileName.{FileName};
ghost use Rattle.tc_store.specs.Disk.{Picture, bytes_at};
ghost use Rattle.tc_store.specs.NameOrder.{name_cmp};
ghost use Rattle.tc_component.specs.Layout.{number_end};
ghost use Rattle.tc_plain_model.specs.Writes.{Write};
ghost use Rattle.tc_lsm_model.specs.Contents.{Content, Partition as OnePartition};
ghost use Rattle.tc_lsm_model.specs.Lists.{last_of};
ghost use Rattle.tc_machine.specs.Pictures.{IsLawful, Opens};
ghost use Rattle.tc_recover.specs.Opening.{Found, OpeningJudged};
ghost use Rattle.tc_recover.specs.Refusals.{Refusal};
ghost use Rattle.tc_lawful.specs.Files.{IsReadable, IsWhole};

use tc_recover::lawful_files_are_read;

/// A law, and no work. A picture of which this is read opens as these contents and logs exactly where what is read is theirs
/// and whole. So it is of files of bytes. Of a lawful picture nothing is refused.
pub fn judged_files_are_lawful()
    ensures opens { (part : OnePartition) (picture : Picture) (found : Found) (cs : List Content) (logs : List (List Write)) → IsStrictlySortedBy name_cmp (map (λ file. file.0) picture) → IsReadable picture (last_of cs) → OpeningJudged part picture (Ok found)
        → IsWhole part picture found cs logs ↔ Opens part picture cs logs }
    ensures bytes { (picture : Picture) (last : ℕ) → ((name : FileName) (bytes : List ℕ) → bytes_at picture name ≡ Some bytes → IsBytes bytes × (length bytes < number_end)) → IsReadable picture last }
    ensures refused { (part : OnePartition) (picture : Picture) (refusal : Refusal) → IsStrictlySortedBy name_cmp (map (λ file. file.0) picture) → OpeningJudged part picture (Err refusal) → IsLawful part picture → ⊥ }
{
    lawful_files_are_read();
}
