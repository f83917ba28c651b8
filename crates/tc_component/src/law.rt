//! That what is written of a component is what is read of it.

ghost use Rattle.std.specs.Prelude.{◌≡◌, ◌<◌, true, ℕ, List, Some, Ok, length, slice_get};
ghost use Rattle.tc_bytes.specs.Codec.{IsBytes};
ghost use Rattle.tc_model.specs.Document.{Name, Document};
ghost use Rattle.tc_plain_model.specs.Writes.{set};
ghost use Rattle.tc_lsm_model.specs.Contents.{Content};
ghost use Rattle.tc_schema_model.specs.Counted.{Counted};
ghost use Rattle.tc_store.specs.Gate.{is_open_file};
ghost use Rattle.tc_store.specs.declared.file_name.FileName.{FileName};
ghost use Rattle.tc_component.specs.declared.head.Head.{Head as OneHead};
ghost use Rattle.tc_component.specs.declared.found.Found.{Found as OneFound};
ghost use Rattle.tc_component.specs.Columns.{IsFound};
ghost use Rattle.tc_component.specs.Fetching.{record_at, IsRecordWithin};
ghost use Rattle.tc_component.specs.Layout.{number_end};
ghost use Rattle.tc_component.specs.Meaning.{MeansOf, IsRecordOfOne};
ghost use Rattle.tc_component.specs.Reading.{file_judged, version_of};
ghost use Rattle.tc_component.specs.Rows.{record_in, head_of, component_index, IsComponent};
ghost use Rattle.tc_component.specs.Spelling.{Row, Index, IsIndex, Holds, name_of, index_of, file_bytes_as};

/// A law, and no work. The file of rows holds them, what an open file holds is what it is judged to be under its name,
/// and it is judged to be nothing else; so a file holds one index, and what is written is loaded again.
pub fn written_is_read()
    ensures written { (version : ℕ) (head : OneHead) (rows : List Row) (names : List Name) (schema : Counted) → IsIndex (index_of version head rows names schema) → length (file_bytes_as version head rows names schema) < number_end → Holds (file_bytes_as version head rows names schema) (index_of version head rows names schema) }
    ensures open { (bytes : List ℕ) (c : Index) → Holds bytes c → is_open_file bytes ≡ true }
    ensures judged { (bytes : List ℕ) (c : Index) → Holds bytes c → file_judged (name_of c.head) bytes ≡ Ok c }
    ensures found { (name : FileName) (bytes : List ℕ) (c : Index) → IsBytes bytes → is_open_file bytes ≡ true → length bytes < number_end → file_judged name bytes ≡ Ok c → Holds bytes c }
    ensures named { (name : FileName) (bytes : List ℕ) (c : Index) → IsBytes bytes → file_judged name bytes ≡ Ok c → name ≡ name_of c.head }
{}

/// A law, and no work. The component of a content is open, and is judged to have the content's header, directory, names
/// and schema, so it is loaded again; and it is the component of no other content. What is found of a key is what the
/// content has of it. At the place of a document stands its record under the names, which is no damage to `fetch`, and
/// under these names the record of no other document.
pub fn components_are_contents()
    ensures holds { (c : Content) (bytes : List ℕ) → IsComponent c bytes → Holds bytes (component_index (version_of bytes) c) }
    ensures open { (c : Content) (bytes : List ℕ) → IsComponent c bytes → is_open_file bytes ≡ true }
    ensures judged { (c : Content) (bytes : List ℕ) → IsComponent c bytes → file_judged (name_of (head_of c)) bytes ≡ Ok (component_index (version_of bytes) c) }
    ensures apart { (c d : Content) (bytes : List ℕ) → IsComponent c bytes → IsComponent d bytes → c ≡ d }
    ensures found { (c : Content) (bytes : List ℕ) (key : ℕ) (found : OneFound) → IsComponent c bytes → IsFound (component_index (version_of bytes) c).slots key found → MeansOf c.entries key found }
    ensures fetched { (c : Content) (bytes : List ℕ) (at key : ℕ) (d : Document) → IsComponent c bytes → slice_get c.entries at ≡ Some (set key d) → record_at (component_index (version_of bytes) c).slots at bytes ≡ record_in (version_of bytes) c.names d }
    ensures spelled { (c : Content) (bytes : List ℕ) (at key : ℕ) (d : Document) → IsComponent c bytes → slice_get c.entries at ≡ Some (set key d) → IsRecordOfOne (version_of bytes) c.names d (record_in (version_of bytes) c.names d) }
    ensures within { (c : Content) (bytes : List ℕ) (at key : ℕ) (d : Document) → IsComponent c bytes → slice_get c.entries at ≡ Some (set key d) → IsRecordWithin (version_of bytes) (length c.names) (record_in (version_of bytes) c.names d) }
{}
