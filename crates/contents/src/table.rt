// Tables of records that are found by a name.
ghost use Rattle.std.specs.Prelude.{◌≡◌, ◌<◌, ◌≤◌, min, [], ◌∷◌, ◌++◌, length, IfSome, if◌then◌else◌, nat_lt, slice_index_or};
ghost use Rattle.std.specs.Option.{option_map};
ghost use Rattle.contents.specs.Held.{any};
ghost use Rattle.contents.specs.Records.{listed};
ghost use Rattle.contents.specs.Search.{first_of};

use crate::search::{Named, find};

// The records at the first `count` of `N` places, in order.
#[derive(Clone, Copy)]
pub struct Table<R, const N: usize> {
    pub records: [R; N],
    pub count: usize,
}

impl<R: Copy, const N: usize> Table<R, N> {
    // A table without records, where `unused` stands at each place.
    pub(crate) fn empty(unused: R) -> Table<R, N>
        ensures list { listed result ≡ [] }
        ensures count { result.count ≡ 0 }
    {
        Table {
            records: [unused; N],
            count: 0,
        }
    }

    // The records in use.
    pub(crate) fn listed(&self) -> &[R]
        ensures list { result.now ≡ listed self.now }
        ensures len { length result.now ≡ min self.now.count N }
    {
        self.records.get(..self.count).unwrap_or(&self.records)
    }

    // Adds a record behind the others, unless all places are in use.
    pub(crate) fn push(&mut self, item: R) -> bool
        ensures taken { result ≡ nat_lt (length (listed self.old)) N }
        ensures list { listed self.new ≡ (if result then listed self.old ++ item ∷ [] else listed self.old) }
        ensures counted { self.old.count ≤ N → self.new.count ≤ N }
    {
        let used = self.listed().len();
        if used >= N {
            return false;
        }
        self.records[used] = item;
        self.count = used + 1;
        true
    }

    // The place of the record of this name.
    pub(crate) fn find<Q: Copy>(&self, name: Q) -> Option<usize>
    where
        R: Named<Q>,
        ensures first { result ≡ first_of (λ r. R.Named.named r name) (listed self.now) }
        ensures within { IfSome result (λ i. i < length (listed self.now)) }
    {
        find(self.listed(), name)
    }

    // Whether a record has this name.
    pub(crate) fn has<Q: Copy>(&self, name: Q) -> bool
    where
        R: Named<Q>,
        ensures { result ≡ any (λ r. R.Named.named r name) (listed self.now) }
    {
        self.find(name).is_some()
    }

    // The record of this name. What `other` is makes no difference, as a record that was found is in use.
    pub(crate) fn named<Q: Copy>(&self, name: Q) -> Option<R>
    where
        R: Named<Q>,
        ensures { (other : R) → result ≡ option_map (λ i. slice_index_or (listed self.now) i other) (first_of (λ r. R.Named.named r name) (listed self.now)) }
    {
        let at = self.find(name)?;
        Some(self.listed()[at])
    }
}
