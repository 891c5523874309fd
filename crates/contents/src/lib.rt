// What a card holds: its life cycle state, diversification data, key sets and registry; and the image that stores it.
#![tactic(auto)]

ghost use Rattle.std.specs.Prelude.{◌≡◌, ◌≤◌, true};
ghost use Rattle.contents.specs.Draft.{drafted};
ghost use Rattle.contents.specs.Held.{sound};

use crate::image::draft::Draft;

pub mod access;
pub mod changes;
pub mod image;
pub mod life;
pub mod records;
pub mod search;
pub mod table;

// The contents of a card. They are always sound: see `sound`. What `counted` says of the draft stands here too, where a
// proof about contents reads it.
#[derive(Clone, Copy)]
pub struct Contents {
    draft: Draft,
    ghost counted: { (draft.sets.count ≤ 4) × (draft.registry.count ≤ 12) },
    ghost ok: { sound (drafted draft) ≡ true },
}
