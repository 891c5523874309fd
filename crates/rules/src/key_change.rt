// PUT KEY: a key set is added or replaced.
ghost use Rattle.std.specs.Prelude.{◌≡◌, ◌+◌, ◌≤◌, true, IfSome, Result};
ghost use Rattle.contents.specs.Contents.{held};
ghost use Rattle.contents.specs.Changes.{is_version};
ghost use Rattle.rules.specs.Rules.{replied};
ghost use Rattle.rules.specs.NewKeys.{key_receipt_bytes};
ghost use Rattle.rules.specs.PutKey.{unwrapped, key_in, key_set_from, own_algorithm, place_for, with_set_put, keys_put, key_put};

use crate::Request;
use crate::locking::check_unlocked;
use crate::new_keys::{KeyField, KeyReceipt, NewKeys};
use answers::StatusWord;
use cipher::{Cipher, Keys, encipher_block, halves};
use contents::Contents;
use contents::records::KeySet;

// A key whose halves are each deciphered.
fn unwrapped_key<C: Cipher>(keys: &C::RoundKeys, key: &[u8; 16]) -> [u8; 16]
    ensures { result ≡ unwrapped (C.Cipher.deciphering keys.now) key.now }
{
    let [first, second] = halves(key);
    let plain = [C::decipher(keys, &first), C::decipher(keys, &second)];
    <[u8; 16]>::try_from(plain.as_flattened()).unwrap()
}

// The key of a field, if its check bytes are right.
fn key_in<C: Cipher>(keys: &C::RoundKeys, field: &KeyField) -> Option<[u8; 16]>
    ensures { result ≡ key_in C.algorithm.enc (C.Cipher.deciphering keys.now) field.now }
{
    let key = unwrapped_key::<C>(keys, &field.key);
    let block = encipher_block::<C>(&key, &[0; 8]);
    if &block[..3] != field.check.as_slice() {
        return None;
    }
    Some(key)
}

// The new key set, if all check bytes are right.
fn key_set_from<C: Cipher>(kek: &[u8; 16], new: &NewKeys) -> Option<KeySet>
    ensures set { result ≡ key_set_from C.algorithm.enc (C.algorithm.dec kek.now) new.now }
    ensures version { IfSome result (λ k. k.version ≡ new.now.version) }
{
    let keys = C::expand(kek);
    let enc = key_in::<C>(&keys, &new.enc)?;
    let mac = key_in::<C>(&keys, &new.mac)?;
    let kek = key_in::<C>(&keys, &new.kek)?;
    let keys = Keys { enc, mac, kek };
    Some(KeySet {
        version: new.version,
        keys,
    })
}

// Whether all three keys are for the card's own cipher.
fn is_own_algorithm<C: Cipher>(new: &NewKeys) -> bool
    ensures { result ≡ own_algorithm C.algorithm.identifier new.now }
{
    let own = C::ALGORITHM;
    new.enc.algorithm == own && new.mac.algorithm == own && new.kek.algorithm == own
}

// Whether there is a place for a set of this version.
fn check_place(contents: &Contents, p1: u8, version: u8) -> Result<(), StatusWord>
    ensures { result ≡ place_for p1 version (held contents.now).sets }
{
    if p1 != 0x00 && !contents.has_version(p1) {
        return Err(StatusWord::NotFound);
    }
    if version != p1 && contents.has_version(version) {
        return Err(StatusWord::WrongData);
    }
    if p1 == 0x00 && contents.key_set_count() >= 4 {
        return Err(StatusWord::NotEnoughSpace);
    }
    Ok(())
}

// Puts a set in its place: behind the others, or where the one of version P1 stands.
fn put_set(contents: &mut Contents, p1: u8, set: KeySet)
    requires { (place_for p1 set.version (held contents.old).sets ≡ Result.Ok tt) × (is_version set.version ≡ true) }
    ensures { held contents.new ≡ with_set_put p1 set (held contents.old) }
{
    if p1 == 0x00 {
        contents.add_key_set(set);
    } else {
        contents.replace_key_set(p1, set);
    }
}

fn put_keys<C: Cipher>(
    contents: &mut Contents,
    kek: &[u8; 16],
    p1: u8,
    new: &NewKeys,
) -> Result<KeyReceipt, StatusWord>
    requires { is_version new.now.version ≡ true }
    ensures { (held contents.new, replied key_receipt_bytes result) ≡ keys_put C.algorithm kek.now (held contents.old) p1 new.now }
{
    if !is_own_algorithm::<C>(new) {
        return Err(StatusWord::AlgorithmUnknown);
    }
    check_place(contents, p1, new.version)?;
    let set = key_set_from::<C>(kek, new).ok_or(StatusWord::CheckValueWrong)?;
    put_set(contents, p1, set);
    Ok(new.receipt())
}

// Adds a key set (P1 00), or replaces the one of version P1. The keys come enciphered under the key-encrypting key.
#[tactic(auto, unfolding(crate::specs::PutKey::key_put))]
pub fn put_key<C: Cipher>(
    contents: &mut Contents,
    kek: &[u8; 16],
    request: Request,
) -> Result<KeyReceipt, StatusWord>
    ensures { (held contents.new, replied key_receipt_bytes result) ≡ key_put C.algorithm kek.now (held contents.old) request.entry.p1 request.entry.p2 request.entry.body.now }
{
    if request.p1 > 0x7F || request.p2 != 0x81 {
        return Err(StatusWord::WrongParameters);
    }
    check_unlocked(contents.state())?;
    let new = NewKeys::try_from(request.body).map_err(|_| StatusWord::WrongData)?;
    put_keys::<C>(contents, kek, request.p1, &new)
}
