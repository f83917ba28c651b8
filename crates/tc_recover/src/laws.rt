//! Laws of what is read of the files of a partition.

ghost use Rattle.std.specs.Prelude.{◌≡◌, List, Ok, Result, map};
ghost use Rattle.std.specs.List.Sorted.{IsStrictlySortedBy};
ghost use Rattle.tc_store.specs.Disk.{Picture, bytes_at};
ghost use Rattle.tc_store.specs.NameOrder.{name_cmp};
ghost use Rattle.tc_plain_model.specs.Writes.{Write};
ghost use Rattle.tc_lsm_model.specs.Contents.{Content, Partition as OnePartition};
ghost use Rattle.tc_machine.specs.Pictures.{Opens};
ghost use Rattle.tc_recover.specs.Lawful.{found_of};
ghost use Rattle.tc_recover.specs.Opening.{Found, OpeningJudged};
ghost use Rattle.tc_recover.specs.Refusals.{Refusal};

use tc_component::components_are_contents;

/// A law, and no work. A lawful picture is refused nothing: what is read of it are the components and the logs that it opens
/// as. Of each picture one thing is judged.
pub fn lawful_files_are_read()
    ensures read { (part : OnePartition) (picture : Picture) (cs : List Content) (logs : List (List Write)) → IsStrictlySortedBy name_cmp (map (λ file. file.0) picture) → Opens part picture cs logs → OpeningJudged part picture (Ok (found_of (bytes_at picture) cs logs)) }
    ensures one_way { (part : OnePartition) (picture : Picture) (a b : Result Found Refusal) → OpeningJudged part picture a → OpeningJudged part picture b → a ≡ b }
{
    components_are_contents();
}
