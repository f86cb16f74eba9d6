// A list is a row of records of 8 words each (document 01, section 1).
ghost use Rattle.std.specs.Prelude.{ℕ, ◌≡◌, ◌<◌, [], length, get_or};
ghost use Rattle.mir.specs.Records.{record_at, records};

// The words of a record: its kind, and seven more.
pub type Record = [u32; 8];

// The records of a list, in order.
pub fn records_of(list: &[u32]) -> &[Record]
    ensures len { length result.now ≡ records list.now }
    ensures each { (i : ℕ) → i < length result.now → (i < records list.now) × (get_or result.now i [] ≡ record_at list.now i) }
{
    list.as_chunks().0
}
