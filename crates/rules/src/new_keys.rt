// The body of PUT KEY.
ghost use Rattle.std.specs.Prelude.{◌≡◌, true, IfOk};
ghost use Rattle.std.specs.Result.{result_ok};
ghost use Rattle.contents.specs.Changes.{is_version};
ghost use Rattle.rules.specs.NewKeys.{whole_field, new_keys_in, receipt_of};

use contents::records::is_version;

// One key: the algorithm that it is for, the key as it comes, enciphered, and the bytes that it is checked by.
#[derive(Clone, Copy)]
pub struct KeyField {
    pub(crate) algorithm: u8,
    pub(crate) key: [u8; 16],
    pub(crate) check: [u8; 3],
}

// A key set as it comes.
#[derive(Clone, Copy)]
pub struct NewKeys {
    pub(crate) version: u8,
    pub(crate) enc: KeyField,
    pub(crate) mac: KeyField,
    pub(crate) kek: KeyField,
}

// What PUT KEY answers: the version and the nine check bytes.
#[derive(Clone, Copy)]
pub struct KeyReceipt {
    pub bytes: [u8; 10],
}

// A body that is not one of PUT KEY.
#[derive(Clone, Copy, PartialEq, Eq, Debug)]
pub struct IllFormed;

// Algorithm, 10, the sixteen bytes of the key, 03, three check bytes.
impl TryFrom<&[u8]> for KeyField {
    type Error = IllFormed;

    ghost try_from_gives = { λ bytes r. result_ok r ≡ whole_field bytes.now };

    fn try_from(bytes: &[u8]) -> Result<KeyField, IllFormed> {
        let [algorithm, 0x10, key @ .., 0x03, c0, c1, c2] = bytes else {
            return Err(IllFormed);
        };
        Ok(KeyField {
            algorithm: *algorithm,
            key: <[u8; 16]>::try_from(key).map_err(|_| IllFormed)?,
            check: [*c0, *c1, *c2],
        })
    }
}

// The new version, and the fields of three keys.
impl TryFrom<&[u8]> for NewKeys {
    type Error = IllFormed;

    ghost try_from_gives = { λ body r. (result_ok r ≡ new_keys_in body.now) × IfOk r (λ n. is_version n.version ≡ true) };

    fn try_from(body: &[u8]) -> Result<NewKeys, IllFormed> {
        if body.len() != 67 || !is_version(body[0]) {
            return Err(IllFormed);
        }
        let enc = KeyField::try_from(&body[1..23])?;
        let mac = KeyField::try_from(&body[23..45])?;
        let kek = KeyField::try_from(&body[45..67])?;
        Ok(NewKeys {
            version: body[0],
            enc,
            mac,
            kek,
        })
    }
}

impl NewKeys {
    pub(crate) fn receipt(&self) -> KeyReceipt
        ensures { result.bytes ≡ receipt_of self.now }
    {
        let [e0, e1, e2] = self.enc.check;
        let [m0, m1, m2] = self.mac.check;
        let [k0, k1, k2] = self.kek.check;
        KeyReceipt {
            bytes: [self.version, e0, e1, e2, m0, m1, m2, k0, k1, k2],
        }
    }
}
