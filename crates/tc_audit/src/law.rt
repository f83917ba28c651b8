//! That components whose records are stored ones are those of contents.

ghost use Rattle.std.specs.Prelude.{◌≡◌, ℕ, List, length};
ghost use Rattle.tc_lsm_model.specs.Contents.{Content};
ghost use Rattle.tc_component.specs.Reading.{version_of};
ghost use Rattle.tc_component.specs.Rows.{component_index, IsComponent, IsIndexOf};
ghost use Rattle.tc_component.specs.Spelling.{Index, Holds};
ghost use Rattle.tc_audit.specs.Told.{content_in, AreStoredUpTo};

use tc_compact::document_meant;
use tc_component::components_are_contents;

/// A law, and no work. A file that holds a component is the component of a content exactly where each of its records is
/// that of a document as it is stored. There is one such content, which is what the records spell.
pub fn stored_records_make_contents()
    ensures made { (c : Index) (bytes : List ℕ) → Holds bytes c → AreStoredUpTo c bytes (length c.slots) → IsComponent (content_in c bytes) bytes × IsIndexOf c (content_in c bytes) }
    ensures stored { (c : Content) (bytes : List ℕ) (end : ℕ) → IsComponent c bytes → AreStoredUpTo (component_index (version_of bytes) c) bytes end }
    ensures one { (c : Content) (bytes : List ℕ) → IsComponent c bytes → content_in (component_index (version_of bytes) c) bytes ≡ c }
{
    components_are_contents();
    document_meant();
}
