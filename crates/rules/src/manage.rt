// The channel commands, each by its own rule.
ghost use Rattle.std.specs.Prelude.{◌≡◌, ℕ, ◌≤◌, List, length};
ghost use Rattle.answers.specs.Replies.{Reply};
ghost use Rattle.cipher.specs.Blocks.{Algorithm};
ghost use Rattle.contents.specs.Contents.{held};
ghost use Rattle.contents.specs.Held.{Held};
ghost use Rattle.rules.specs.Own.{Rule, own_rule, no_rule, receipt_bytes};
ghost use Rattle.rules.specs.Rules.{replied};

use crate::Request;
use crate::deletion::delete;
use crate::inquiry::get_status;
use crate::installation::install;
use crate::key_change::put_key;
use crate::life_cycle::set_status;
use crate::listing::Listing;
use crate::new_keys::KeyReceipt;
use answers::StatusWord;
use apdu::{ChannelCommand, Management, NoCommand};
use cipher::Cipher;
use contents::Contents;

// The data of an answer with 9000.
#[derive(Clone, Copy)]
pub enum Receipt {
    Nothing,
    Listed(Listing),
    // the one byte 00 of INSTALL and DELETE
    Confirmed([u8; 1]),
    // the version and the check bytes of PUT KEY
    Keyed(KeyReceipt),
}

impl Receipt {
    pub fn as_slice(&self) -> &[u8]
        ensures bytes { result.now ≡ receipt_bytes self.now }
        ensures short { length result.now ≤ 228 }
    {
        match self {
            Receipt::Nothing => &[],
            Receipt::Listed(listing) => listing.as_slice(),
            Receipt::Confirmed(bytes) => bytes,
            Receipt::Keyed(keys) => &keys.bytes,
        }
    }
}

// What each command inside a channel does to the contents, and what it answers.
pub trait OwnRule: ChannelCommand {
    // from what the card holds, the channel's key-encrypting key and the command to what the card holds then, and the reply
    ghost own_rule: { Rule Self };

    // `kek` is the channel's key-encrypting key.
    fn obey<C: Cipher>(
        self,
        contents: &mut Contents,
        kek: &[u8; 16],
        request: Request,
    ) -> Result<Receipt, StatusWord>
        ensures { (held contents.new, replied receipt_bytes result) ≡ own_rule C.algorithm kek.now (held contents.old) self request.entry.p1 request.entry.p2 request.entry.body.now };
}

impl OwnRule for Management {
    ghost own_rule = { own_rule };

    #[tactic(auto, unfolding(crate::specs::Own::own_rule))]
    fn obey<C: Cipher>(
        self,
        contents: &mut Contents,
        kek: &[u8; 16],
        request: Request,
    ) -> Result<Receipt, StatusWord> {
        match self {
            Management::GetStatus => get_status(contents, request).map(Receipt::Listed),
            Management::SetStatus => set_status(contents, request).map(|()| Receipt::Nothing),
            Management::Install => install(contents, request).map(Receipt::Confirmed),
            Management::Delete => delete(contents, request).map(Receipt::Confirmed),
            Management::PutKey => put_key::<C>(contents, kek, request).map(Receipt::Keyed),
        }
    }
}

impl OwnRule for NoCommand {
    ghost own_rule = { no_rule };

    fn obey<C: Cipher>(
        self,
        _contents: &mut Contents,
        _kek: &[u8; 16],
        _request: Request,
    ) -> Result<Receipt, StatusWord> {
        Err(StatusWord::InstructionUnknown)
    }
}
