// What a card answers, before and as it is written to the caller's area.
ghost use Rattle.std.specs.Prelude.{◌≡◌, ◌+◌, ◌≤◌, length};
ghost use Rattle.answers.specs.Areas.{written, fronted};
ghost use Rattle.answers.specs.Replies.{reply_bytes};
ghost use Rattle.card.specs.Replies.{said, update_data};

use answers::StatusWord;
use rules::manage::Receipt;

// What INITIALIZE UPDATE answers with.
#[derive(Clone, Copy)]
pub struct Update {
    pub diversification: [u8; 10],
    pub version: u8,
    pub challenge: [u8; 8],
    pub cryptogram: [u8; 8],
}

// What a card says. A rule that can be refused gives the status word of its refusal as the `Err` of what did not come about.
#[derive(Clone, Copy)]
pub enum Answer {
    // a status word alone
    Status(StatusWord),
    // what SELECT tells of the card manager
    Manager(StatusWord),
    Updated(Update),
    // what a command inside the channel answers with 9000
    Received(Receipt),
}

// 6F, then 84 with the card manager's AID, and A5 with 9F65 and FF.
const MANAGER: [u8; 18] = [
    0x6F, 0x10, 0x84, 0x08, 0xA0, 0x00, 0x00, 0x00, 0x03, 0x00, 0x00, 0x00, 0xA5, 0x04, 0x9F, 0x65,
    0x01, 0xFF,
];

// Writes some bytes from a place on, and says where they end.
fn put(area: &mut [u8], at: usize, bytes: &[u8]) -> usize
    requires { at + length bytes.now ≤ length area.old }
    ensures area { area.new ≡ written area.old at bytes.now }
    ensures end { result ≡ at + length bytes.now }
{
    let end = at + bytes.len();
    area[at..end].copy_from_slice(bytes);
    end
}

impl Update {
    // The version is followed by 01, which stands for SCP01.
    fn write(&self, area: &mut [u8]) -> usize
        requires { 258 ≤ length area.old }
        ensures area { area.new ≡ written area.old 0 (update_data self.now.diversification self.now.version self.now.challenge self.now.cryptogram) }
        ensures end { result ≡ 28 }
        ensures long { length (update_data self.now.diversification self.now.version self.now.challenge self.now.cryptogram) ≡ 28 }
    {
        let at = put(area, 0, &self.diversification);
        let at = put(area, at, &[self.version, 0x01]);
        let at = put(area, at, &self.challenge);
        put(area, at, &self.cryptogram)
    }
}

impl Answer {
    fn status(&self) -> StatusWord
        ensures { result ≡ (said self.now).status }
    {
        match self {
            Answer::Status(status) | Answer::Manager(status) => *status,
            Answer::Updated(_) | Answer::Received(_) => StatusWord::Success,
        }
    }

    // Writes the data alone.
    fn write_text(&self, area: &mut [u8]) -> usize
        requires { 258 ≤ length area.old }
        ensures area { area.new ≡ written area.old 0 (said self.now).text }
        ensures end { result ≡ length (said self.now).text }
        ensures short { result ≤ 256 }
    {
        match self {
            Answer::Status(_) => 0,
            Answer::Manager(_) => put(area, 0, &MANAGER),
            Answer::Updated(update) => update.write(area),
            Answer::Received(receipt) => put(area, 0, receipt.as_slice()),
        }
    }

    // Writes data and status word at the front of the area, and gives their length.
    pub(crate) fn write(&self, area: &mut [u8]) -> usize
        requires { 258 ≤ length area.old }
        ensures area { area.new ≡ fronted area.old (reply_bytes (said self.now)) }
        ensures end { result ≡ length (reply_bytes (said self.now)) }
    {
        let at = self.write_text(area);
        put(area, at, &<[u8; 2]>::from(self.status()))
    }
}
