//! Laws of indexes when other calls change their heap. Each law is the contract of a function that does nothing.
ghost use Rattle.seg_index.specs.Laws.{AbsentKeysBelong, EntriesStaySorted, GrowthsStay, IndexesStay};
ghost use Rattle.seg_index.specs.Laws.{KeysHaveOnePlace, SearchesHalve};

/// States that an index stays if a block is allocated, and if a block other than its own is freed or written.
pub fn indexes_stay()
    ensures { IndexesStay }
{}

/// States that entries stay sorted if a block is allocated, and if a block of none of their objects is freed or
/// written.
pub fn entries_stay_sorted()
    ensures { EntriesStaySorted }
{}

/// States that an object whose key a look-up did not find belongs at the place that the look-up returned.
pub fn absent_keys_belong()
    ensures { AbsentKeysBelong }
{}

/// States that a look-up of a key in a sorted index has only one possible result.
pub fn keys_have_one_place()
    ensures { KeysHaveOnePlace }
{}

/// States that `add` accepts the result of `prepare` even after other calls on the heap, if they leave its block in
/// use.
pub fn growths_stay()
    ensures { GrowthsStay }
{}

/// States that the number of comparisons of a look-up depends only on the order of each key to the wanted key. It is at
/// most the number of binary digits of the count.
pub fn searches_halve()
    ensures { SearchesHalve }
{}
