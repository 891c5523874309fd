// The one search for a record by its name, for every kind of record that bears one.
ghost use Rattle.std.specs.Prelude.{◌≡◌, ◌<◌, Bool, length, IfSome};
ghost use Rattle.contents.specs.Search.{first_of};

// A record that bears a name of type `Q`.
pub trait Named<Q> {
    ghost named: { Self → Q → Bool };

    fn bears(&self, name: Q) -> bool
        ensures { result ≡ named self.now name };
}

// The place of the first record of this name.
pub fn find<Q: Copy, N: Named<Q>>(records: &[N], name: Q) -> Option<usize>
    ensures first { result ≡ first_of (λ x. N.Named.named x name) records.now }
    ensures within { IfSome result (λ i. i < length records.now) }
{
    records.iter().position(|record| record.bears(name))
}
